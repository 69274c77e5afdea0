ghost use Rattle.std.specs.Prelude.{◌≡◌};
ghost use Rattle.control_box.specs.Endpoints.{PosterIs};
ghost use Rattle.flow_worker.specs.Pairs.{EachOne};

use control_box::Poster;
use std::alloc::Global;
use tuple_trace::NoMemory;

/// The feeder's end of a worker's box, with the number of its last post.
#[derive(Drop)]
pub struct Control {
    poster: Poster,
    posted: u64,
    ghost same: { poster.posted ≡ posted },
}

impl Control {
    /// Keeps the poster of a new box.
    pub fn new(poster: Poster) -> Control
        requires { poster.posted ≡ 0 }
    {
        Control { poster, posted: 0 }
    }

    /// Posts the next due, if the worker has turned the one before it. Returns whether it did.
    pub fn post(&mut self) -> bool {
        if self.posted == u64::MAX {
            return false;
        }
        let next = self.posted + 1;
        if !self.poster.ready(next) {
            return false;
        }
        self.poster.post(next);
        self.posted = next;
        true
    }
}

/// Keeps the posters of new boxes, in their order.
pub fn controls_of(alloc: Global, posters: Vec<Poster>) -> Result<Vec<Control>, NoMemory>
    requires { EachOne (λ (p : PosterIs). p.posted ≡ 0) posters.items }
{
    let mut controls = Vec::new(alloc);
    for poster in posters {
        controls.push(Control::new(poster))?;
    }
    Ok(controls)
}
