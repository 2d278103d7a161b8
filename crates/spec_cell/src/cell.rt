//! A cell: one partition that runs ahead of what is settled, with what waits for it.

ghost use Rattle.std.specs.Prelude.{◌≡◌, ◌<◌, ◌≤◌, true, false, Some, IfOk, is_ok};
ghost use Rattle.cell_steps.specs.Steps.{entries_in};
ghost use Rattle.spec_cell.specs.Turns.{IsHeld, CellTurns};

use crate::mine::Mine;
use cell_steps::{Live, Mode, Round, Step, Turned, turn};
use log_items::Packet;
use part_rows::Reactions;
use std::alloc::{AllocError, Global};
use std::marker::Model;

/// What came of a turn.
pub enum CellTurn {
    /// An entry was made at this position, and these go out at once.
    Turned(u64, Vec<Packet>),
    /// An entry isn't settled.
    Held,
    /// Nothing is possible.
    Idle,
    /// The entry would have this number, which is past those that there are.
    Spent(u64),
}

/// A partition that runs ahead of what its seat has settled. Want of memory in a call leaves it without a state, and each later call says
/// so again.
pub struct Cell<S: Mine> {
    /// Its state, unless memory ran out.
    pub(crate) live: Option<Live>,
    /// The greatest moment that was handed in.
    pub(crate) now: u64,
    /// How many of the first entries are in the frame that is out.
    pub(crate) out: usize,
    /// The node that owns it.
    pub(crate) owner: u32,
    /// Which side of a turn is first next.
    pub(crate) round: Round,
    /// Entries that were given up and aren't let go of yet. Each call that makes or settles entries lets go of one, so that giving entries
    /// up costs the same however much the states have that they made, and no more of them stand here than were ahead at once.
    pub(crate) cut_off: Vec<Step>,
    /// The seat, or what stands for it while it is out.
    pub(crate) seat: S,
}

impl<S: Mine> Model for Cell<S> {
    ghost use Rattle.std.specs.Prelude.{is_some};
    ghost use Rattle.spec_cell.specs.Views.{CellView, StandsIn, entries_of_live, incarnation_of, waits_of_live, given_of_live};

    ghost Value = { CellView };

    ghost view = { λ c. record {
      number = S.number c.seat;
      slot = S.slot c.seat;
      going = is_some c.live;
      entries = entries_of_live c.live;
      incarnation = incarnation_of c.live;
      waits = waits_of_live c.live;
      given = given_of_live c.live;
      now = c.now;
      out = c.out;
      owner = c.owner;
      round = c.round;
    } };

    ghost invariant = { λ c. StandsIn S.flows S.count (S.begin (S.number c.seat)) (S.slot c.seat).mine c.now c.out c.live };
}

/// Whether an entry isn't settled in the mode that has one at a time.
fn is_held(mode: Mode, live: &Live) -> bool
    ensures held { result ≡ true → IsHeld mode (entries_in live.now.steps.items) }
    ensures free { result ≡ false → IsHeld mode (entries_in live.now.steps.items) → ⊥ }
{
    match mode {
        Mode::None => !live.steps.is_empty(),
        Mode::Local | Mode::Global => false,
    }
}

/// One of the entries that were given up is let go of, if there is one.
pub(crate) fn let_one_go(cut_off: &mut Vec<Step>) {
    if let Some(step) = cut_off.pop() {
        step.let_go();
    }
}

/// A state comes to its place.
pub(crate) fn put(place: &mut Option<Live>, live: Live)
    ensures { place.new ≡ Some live }
{
    *place = Some(live);
}

impl<S: Mine> Cell<S> {
    /// One entry more: of 1 to so many items, of what waits and of the deliveries and timers that are possible, until nothing is; with
    /// what of it goes out at once. Else it is held, or nothing is possible.
    pub fn turn<R: Reactions>(
        &mut self,
        alloc: Global,
        reactions: &R,
        limit: u32,
        mode: Mode,
    ) -> Result<CellTurn, AllocError>
        requires flows { R.flows reactions.now ≡ S.flows }
        requires some { 0 < limit }
        requires most { limit ≤ 64 }
        ensures turns { IfOk result (λ turned.
            CellTurns S.flows S.count (S.begin self.old.number) mode limit self.old turned self.new) }
        ensures going { self.new.going ≡ is_ok result }
    {
        let_one_go(&mut self.cut_off);
        let Some(live) = self.live.take() else {
            return Err(AllocError);
        };
        if is_held(mode, &live) {
            put(&mut self.live, live);
            return Ok(CellTurn::Held);
        }
        let position = live.ahead().position();
        let turned = turn(alloc, reactions, live, mode, self.now, limit, self.round)?;
        self.round = self.round.next();
        match turned {
            Turned::Made(made, packets) => {
                put(&mut self.live, made);
                Ok(CellTurn::Turned(position, packets))
            }
            Turned::Idle(same) => {
                put(&mut self.live, same);
                Ok(CellTurn::Idle)
            }
            Turned::Spent(same, number) => {
                put(&mut self.live, same);
                Ok(CellTurn::Spent(number))
            }
        }
    }
}
