//! What workers call between their steps, by which a test may hold them there.
ghost use Rattle.dpl_board.specs.Sheets.{IsPosted};
ghost use Rattle.dpl_turn.specs.Seats.{knows};

use dpl_turn::Seat;

/// What each worker calls: `enter` once it has taken a tile and before it works it out, and `posted` once the tile stands
/// in the history that its seat has seen.
pub trait Gate {
    fn enter(&self, worker: u32, tile: u32);

    fn posted(&self, seat: &Seat, tile: u32)
        requires { IsPosted tile (knows seat.now).known };
}

/// The gate that holds nobody.
pub struct OpenGate;

impl Gate for OpenGate {
    fn enter(&self, _worker: u32, _tile: u32) {}

    fn posted(&self, _seat: &Seat, _tile: u32) {}
}
