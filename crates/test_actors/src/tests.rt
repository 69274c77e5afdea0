mod by_hand;
mod control;
mod fed;
mod feeds;
mod real_setups;
mod turns;
mod watch;
mod whole;
