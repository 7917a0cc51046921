//! A boxed device is a device.

ghost use Rattle.std.specs.Prelude.{◌≡◌};

use crate::device::{ActFault, Device};
use path_model::{Law, Verb};

impl Device for Box<dyn Device + Send> {
    ghost state = { λ b. (Device-box b).state b.value };

    fn law(&self) -> Law {
        (**self).law()
    }

    fn failures(&self) -> u64 {
        (**self).failures()
    }

    fn at(&self, place: u32) -> Option<u64> {
        (**self).at(place)
    }

    fn act(&mut self, verb: Verb) -> Result<u64, ActFault> {
        (**self).act(verb)
    }
}
