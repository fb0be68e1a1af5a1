//! The three words of a stream beside its queue: how many numbers are done, how many are lost, and
//! the stop mark. The seats' steps and their events are the board's.
ghost use Rattle.std.specs.Prelude.{◌≡◌, ◌+◌, ◌-◌, ◌<◌, ◌≤◌, ◌∷◌, [], ℕ, length, IfOk};
ghost use Rattle.tp_board.specs.declared.event.Event.TheVariants as event;
ghost use Rattle.tp_board.specs.declared.event.Shown.TheVariants as shown;
ghost use Rattle.tp_stream.specs.Tallies.{with_numbers, MayReport, Takes};
ghost use Rattle.tp_board.specs.Views.{newcomer, join_of};
ghost use Rattle.tp_board.specs.Words.{size};

use atomic_table::{Play, Seat, Table, TableRule};
use std::alloc::{AllocError, Global};
use std::marker::{Brand, PhantomData};
use tp_board::rule::{Halt, LookStop, OneSeat, Size};
use tp_board::view::View;

/// The rule of the three words, under which the first seat is all seats in one.
pub struct ThreeWords;

impl TableRule<(), View, Size> for ThreeWords {
    ghost use Rattle.tp_stream.specs.Tallies.{TallyHolds};
    ghost use Rattle.tp_board.specs.Views.{newcomer};

    ghost holds = { TallyHolds };

    ghost first = { λ k. newcomer k.packets k.members };
}

/// Names the number that a step reports.
pub trait Numbered {
    ghost use Rattle.std.specs.Prelude.{ℕ};

    ghost number: { ℕ };
}

impl Numbered for Brand {
    ghost number = { 0 };
}

/// An addition to `done`.
pub struct AddDone<B> {
    number: PhantomData<B>,
}

impl<B: Numbered> Play<(), View> for AddDone<B> {
    ghost use Rattle.tp_board.specs.declared.event.Event.TheVariants as event;
    ghost use Rattle.tp_stream.specs.Tallies.{Reports};

    ghost then = { Reports event.Finish B.number };
}

/// An addition to `lost`.
pub struct AddLost<B> {
    number: PhantomData<B>,
}

impl<B: Numbered> Play<(), View> for AddLost<B> {
    ghost use Rattle.tp_board.specs.declared.event.Event.TheVariants as event;
    ghost use Rattle.tp_stream.specs.Tallies.{Reports};

    ghost then = { Reports event.Abandon B.number };
}

pub const DONE: usize = 0;

pub const LOST: usize = 1;

pub const STOP: usize = 2;

pub type Tally = Table<(), View, Size, ThreeWords, Global>;

pub type Token = Seat<(), View>;

/// The words of a stream for this many packets, with this many seats in one.
pub fn open_tally(alloc: Global, packets: u32, seats: u32) -> Result<(Tally, Token), AllocError>
    requires { seats ≤ 65 }
    ensures words { IfOk result (λ r. (r.0.shared.table_id.words ≡ 3) × (r.0.shared.table_id.slots ≡ 0)) }
    ensures told { IfOk result (λ r. r.0.shared.key ≡ size packets seats) }
    ensures own { IfOk result (λ r. r.1.table_id ≡ r.0.shared.table_id) }
    ensures me { IfOk result (λ r. r.1.me ≡ (newcomer packets seats, [])) }
{
    let about = Size {
        packets: u64::from(packets),
        members: u64::from(seats),
    };
    Table::of_words(alloc, &[0, 0, 0], &about)
}

/// One seat, cut from those that are still in one.
pub fn another_seat(tally: &Tally, token: &mut Token, packets: u32, seats: u32) -> Token
    requires tally { (token.old.table_id ≡ tally.now.shared.table_id) × (tally.now.shared.table_id.words ≡ 3) }
    requires some { (token.old.me ≡ (newcomer packets seats, [])) × (0 < seats) }
    ensures rest { (token.new.table_id ≡ token.old.table_id) × (token.new.me ≡ (newcomer packets (seats - 1), [])) }
    ensures one { (result.table_id ≡ token.old.table_id) × (result.me ≡ (newcomer packets 1, [])) }
{
    tally.shared.split_seat::<OneSeat>(token)
}

/// Two seats in one.
pub fn join_seats(tally: &Tally, token: &mut Token, other: Token)
    requires tally { (token.old.table_id ≡ tally.now.shared.table_id) × (tally.now.shared.table_id.words ≡ 3) }
    requires other { (other.table_id ≡ tally.now.shared.table_id) × (other.me.1 ≡ []) }
    requires some { 0 < token.old.me.0.parts }
    ensures own { token.new.table_id ≡ token.old.table_id }
    ensures me { token.new.me ≡ (join_of token.old.me.0 other.me.0, token.old.me.1) }
{
    tally.shared.join_seat::<OneSeat>(token, other);
}

/// One more is done, and the seat's view has its number.
pub fn report_done(tally: &Tally, token: &mut Token, number: u32)
    requires tally { (token.old.table_id ≡ tally.now.shared.table_id) × (tally.now.shared.table_id.words ≡ 3) }
    requires room { MayReport token.old.me.0 }
    ensures own { (token.new.table_id ≡ token.old.table_id) × (token.new.me.1 ≡ token.old.me.1) }
    ensures step { (found : ℕ) × Takes event.Finish (with_numbers token.old.me.0 (number ∷ [])) found token.new.me.0 }
{
    add_done::<Brand>(tally, token, number);
}

fn add_done<B: Numbered>(tally: &Tally, token: &mut Token, number: u32)
    requires number { B.number ≡ number }
    requires tally { (token.old.table_id ≡ tally.now.shared.table_id) × (tally.now.shared.table_id.words ≡ 3) }
    requires room { MayReport token.old.me.0 }
    ensures own { (token.new.table_id ≡ token.old.table_id) × (token.new.me.1 ≡ token.old.me.1) }
    ensures step { (found : ℕ) × Takes event.Finish (with_numbers token.old.me.0 (number ∷ [])) found token.new.me.0 }
{
    tally.shared.fetch_add::<AddDone<B>>(token, DONE, 1);
}

/// One more is lost, and the seat's view has its number.
pub fn report_lost(tally: &Tally, token: &mut Token, number: u32)
    requires tally { (token.old.table_id ≡ tally.now.shared.table_id) × (tally.now.shared.table_id.words ≡ 3) }
    requires room { MayReport token.old.me.0 }
    ensures own { (token.new.table_id ≡ token.old.table_id) × (token.new.me.1 ≡ token.old.me.1) }
    ensures step { (found : ℕ) × Takes event.Abandon (with_numbers token.old.me.0 (number ∷ [])) found token.new.me.0 }
{
    add_lost::<Brand>(tally, token, number);
}

fn add_lost<B: Numbered>(tally: &Tally, token: &mut Token, number: u32)
    requires number { B.number ≡ number }
    requires tally { (token.old.table_id ≡ tally.now.shared.table_id) × (tally.now.shared.table_id.words ≡ 3) }
    requires room { MayReport token.old.me.0 }
    ensures own { (token.new.table_id ≡ token.old.table_id) × (token.new.me.1 ≡ token.old.me.1) }
    ensures step { (found : ℕ) × Takes event.Abandon (with_numbers token.old.me.0 (number ∷ [])) found token.new.me.0 }
{
    tally.shared.fetch_add::<AddLost<B>>(token, LOST, 1);
}

/// Sets the stop mark.
pub fn set_stop(tally: &Tally, token: &mut Token)
    requires tally { (token.old.table_id ≡ tally.now.shared.table_id) × (tally.now.shared.table_id.words ≡ 3) }
    requires seat { token.old.me.0.parts ≡ 1 }
    ensures own { (token.new.table_id ≡ token.old.table_id) × (token.new.me.1 ≡ token.old.me.1) }
    ensures step { (found : ℕ) × Takes event.Stop token.old.me.0 found token.new.me.0 }
{
    tally.shared.fetch_or::<Halt>(token, STOP, 1);
}

/// Loads the stop mark.
pub fn look_stop(tally: &Tally, token: &mut Token) -> u64
    requires tally { (token.old.table_id ≡ tally.now.shared.table_id) × (tally.now.shared.table_id.words ≡ 3) }
    requires seat { token.old.me.0.parts ≡ 1 }
    ensures own { (token.new.table_id ≡ token.old.table_id) × (token.new.me.1 ≡ token.old.me.1) }
    ensures step { Takes (event.Look shown.Stop) token.old.me.0 result token.new.me.0 }
{
    tally.shared.load::<LookStop>(token, STOP)
}
