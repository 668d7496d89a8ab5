//! One value for each way.

ghost use Rattle.std.specs.Prelude.{◌≡◌};
ghost use Rattle.line_law.specs.Ways.{of_way, with_way};

use block_words::Way;

/// One value for each way.
#[derive(Clone, Copy, Debug, PartialEq, Eq)]
pub struct ByWay<T> {
    pub up: T,
    pub down: T,
}

impl<T: Copy> ByWay<T> {
    /// The value of a way.
    pub fn get(&self, way: Way) -> T
        ensures { result ≡ of_way self.now way }
    {
        match way {
            Way::Up => self.up,
            Way::Down => self.down,
        }
    }

    /// Writes the value of a way, and leaves the other.
    pub fn set(&mut self, way: Way, value: T)
        ensures { self.new ≡ with_way self.old way value }
    {
        match way {
            Way::Up => self.up = value,
            Way::Down => self.down = value,
        }
    }
}
