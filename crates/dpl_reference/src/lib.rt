//! What an element is for a layer; what one reference is refused for, and the copies that it places, by STRANS, MAG, ANGLE, COLROW and XY of the GDSII Stream Format, Release 6.
#![tactic(auto)]

mod copies;
mod faults;
mod role;

ghost use Rattle.std.specs.Prelude.{◌≡◌, ◌+◌, ◌*◌, ◌^◌, ◌≤◌, length};
ghost use Rattle.dpl_spec_split.specs.Loops.{IsPointWithin};
ghost use Rattle.dpl_spec_layout.specs.Elements.{point_in};

pub use crate::copies::{array_copies, single_copy};
pub use crate::faults::{array_fault, single_fault};
pub use crate::role::{PathStyle, Role, role_of};
use dpl_base::Pt;
use dpl_records::i32_at;

/// The point `i` in the data of XY.
pub fn point_at(xy: &[u8], i: usize) -> Pt
    requires { 8 * i + 8 ≤ length xy.now }
    ensures value { result ≡ point_in xy.now i }
    ensures within { IsPointWithin (2 ^ 31) result }
{
    Pt {
        x: i32_at(xy, 8 * i) as i64,
        y: i32_at(xy, 8 * i + 4) as i64,
    }
}
