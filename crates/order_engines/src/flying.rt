// An outstanding transfer, and its next element.
ghost use Rattle.std.specs.Prelude.{◌≡◌, ◌+◌, ◌<◌, ◌≤◌, ◌^◌, length};
ghost use Rattle.bus_model.specs.Places.{slow_place};
ghost use Rattle.bus_model.specs.Engines.{next_in, next_out, slow_out};
ghost use Rattle.order_engines.specs.Flying.{flight, FliesWithin, MovesOn};

use bus_model::Transfer;

/// An outstanding transfer with the cells of its half.
#[derive(Drop)]
pub struct Flying {
    pub transfer: Transfer,
    pub cells: Vec<i64>,
    pub moved: u32,
    pub engine: Option<u32>,
}

impl Flying {
    /// The next element comes from its slow place into its cell.
    pub fn move_in(&mut self, slow: &[i64])
        requires more { self.old.moved < self.old.transfer.count }
        requires chunk { 1 ≤ self.old.transfer.chunk }
        requires fits { slow_place self.old.transfer self.old.moved < 2 ^ 32 }
        requires within { slow_place self.old.transfer self.old.moved < length slow.now }
        requires inside { self.old.transfer.offset + self.old.moved < length self.old.cells.items }
        ensures { flight self.new ≡ next_in slow.now (flight self.old) }
    {
        let _count = self.transfer.count;
        let place = self.transfer.slow(self.moved);
        let cell = self.transfer.offset as usize + self.moved as usize;
        self.cells[cell] = slow[place as usize];
        self.moved += 1;
    }

    /// The next element goes from its cell to its slow place.
    pub fn move_out(&mut self, slow: &mut [i64])
        requires more { self.old.moved < self.old.transfer.count }
        requires chunk { 1 ≤ self.old.transfer.chunk }
        requires fits { slow_place self.old.transfer self.old.moved < 2 ^ 32 }
        requires within { slow_place self.old.transfer self.old.moved < length slow.old }
        requires inside { self.old.transfer.offset + self.old.moved < length self.old.cells.items }
        ensures flight { flight self.new ≡ next_out (flight self.old) }
        ensures slow { slow.new ≡ slow_out slow.old (flight self.old) }
    {
        let _count = self.transfer.count;
        let place = self.transfer.slow(self.moved);
        let cell = self.transfer.offset as usize + self.moved as usize;
        slow[place as usize] = self.cells[cell];
        self.moved += 1;
    }

    /// The next element goes in the transfer's direction.
    pub fn move_next(&mut self, slow: &mut [i64])
        requires more { self.old.moved < self.old.transfer.count }
        requires within { FliesWithin (length slow.old) (flight self.old) }
        ensures { MovesOn slow.old (flight self.old) slow.new (flight self.new) }
    {
        if self.transfer.incoming {
            self.move_in(slow);
        } else {
            self.move_out(slow);
        }
    }
}
