// What a frame says of the store's shape.
ghost use Rattle.std.specs.Prelude.{◌≡◌, ◌≤◌};
ghost use Rattle.frame.specs.Frames.{shape_in};

use crate::Frame;

impl Frame {
    // How many pages the store has.
    pub fn pages(&self) -> u16
        ensures value { result ≡ (shape_in self.now).pages }
        ensures most { result ≤ 64 }
    {
        self.pages
    }

    // How many log drives the store has.
    pub fn logs(&self) -> u16
        ensures value { result ≡ (shape_in self.now).logs }
        ensures least { 1 ≤ result }
        ensures most { result ≤ 8 }
    {
        self.logs
    }

    // How many blocks a drive has: 0 where there is no such drive.
    pub fn blocks(&self, drive: u16) -> u16
        ensures { result ≡ (shape_in self.now).blocks drive }
    {
        self.sizes.get(drive as usize).copied().unwrap_or(0)
    }
}
