mod intake;
mod parts;
mod told;
