// When a record is valid. These are public for the step and for the other kinds of memory.
// By branches, not by flags: so small that the compiler lays is_valid into each call on an image.
ghost use Rattle.std.specs.Prelude.{◌≡◌, not, ◌&&◌};
ghost use Rattle.record.specs.Operation.{is_push};
ghost use Rattle.record.specs.Valid.{idle_fits, operation_fits, place_fits, nothing_read, at_wall, stage_fits, valid_of};

use crate::Record;
use crate::side::{in_range, is_push, wall_of};

impl Record {
    // All but the stage, as its definition has it: by == a record of this stage had to be made first.
    fn idle_fits(self) -> bool
        ensures { result ≡ idle_fits self }
    {
        (self.operation == 0)
            & (self.k == 0)
            & (self.v == 0)
            & (self.first == 0)
            & (self.second == 0)
    }

    fn operation_fits(self) -> bool
        ensures { result ≡ operation_fits self }
    {
        if 3 < self.operation {
            return false;
        }
        if is_push(self.operation) {
            return 3 <= self.v;
        }
        self.v == 0
    }

    fn place_fits(self, max: u16) -> bool
        ensures { result ≡ place_fits max self }
    {
        in_range(max, self.operation, self.k as u32)
    }

    fn nothing_read(self) -> bool
        ensures { result ≡ nothing_read self }
    {
        (self.k == 0) & (self.first == 0) & (self.second == 0)
    }

    pub fn at_wall(self, max: u16) -> bool
        ensures { result ≡ at_wall max self }
    {
        self.k as u32 == wall_of(max, self.operation)
    }

    fn off_wall(self, max: u16) -> bool
        ensures { result ≡ not (is_push self.operation && at_wall max self) }
    {
        !(is_push(self.operation) & self.at_wall(max))
    }

    fn stage_fits(self, max: u16) -> bool
        ensures { result ≡ stage_fits max self }
    {
        if self.stage == 1 {
            return self.nothing_read();
        }
        if !self.place_fits(max) {
            return false;
        }
        match self.stage {
            2 => self.second == 0,
            3 => !is_push(self.operation),
            // Not 4 | 5: with one arm the compiler takes up to ten instructions more for a step at stage 5 (measured).
            4 => self.off_wall(max),
            5 => self.off_wall(max),
            _ => false,
        }
    }

    #[tactic(auto, unfolding(crate::specs::Valid::valid_of))]
    pub fn is_valid(self, max: u16) -> bool
        ensures { result ≡ valid_of max self }
    {
        if self.stage == 0 {
            return self.idle_fits();
        }
        if !self.operation_fits() {
            return false;
        }
        self.stage_fits(max)
    }
}
