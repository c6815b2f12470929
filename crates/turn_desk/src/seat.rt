//! The right to make steps at a desk.

ghost use Rattle.std.specs.Prelude.{◌≡◌, ◌≤◌, [], None};
ghost use Rattle.turn_desk.specs.declared.view.View.TheVariants.{LiveSeat};
ghost use Rattle.turn_desk.specs.Seats.{SeatState};
ghost use Rattle.turn_desk.specs.Views.{past, past_of, seat_of};

use crate::machine::Machine;
use crate::rule::TableSeat;
use std::marker::Model;

/// A number of a desk. In a clause it is its desk, its number, the steps made through it and the
/// story as the last of them left it.
pub struct Seat<M: Machine> {
    pub(crate) token: TableSeat<M>,
    pub(crate) number: u32,
}

impl<M: Machine> Model for Seat<M> {
    ghost Value = { SeatState M.Call M.Reply M.Event };

    ghost view = { λ s. seat_of s.token.table_id (past_of s.token.me.0) };

    ghost invariant = { λ s. let p = past_of s.token.me.0 in
        (s.token.me ≡ (LiveSeat p None, [])) × (s.number ≡ p.number) × (1 ≤ s.number) × (s.number ≤ 64) × M.within p.log p.number p.steps };
}

impl<M: Machine> Seat<M> {
    /// Its number at the desk.
    pub fn number(&self) -> u32
        ensures number { result ≡ self.now.number }
        ensures range { (1 ≤ result) × (result ≤ 64) }
    {
        self.number
    }

    /// Gives the seat of the table.
    pub(crate) fn into_token(self) -> TableSeat<M>
        ensures table { result.table_id ≡ self.desk }
        ensures view { result.me ≡ (LiveSeat (past self.number self.steps self.log) None, []) }
    {
        let Seat { token, number: _ } = self;
        token
    }
}

impl<M: Machine> Drop for Seat<M> {
    fn drop(self) {
        let Seat { token, number: _ } = self;
        drop(token);
    }
}

/// The story that a seat has agrees with its steps, whatever others did since. A function with no
/// effect, whose contract is the law.
pub fn law_within<M: Machine>(seat: &Seat<M>)
    ensures { M.within seat.now.log seat.now.number seat.now.steps }
{
    let _ = &seat.number;
}
