//! The stream: packets that one thread feeds and the members take while they run.
ghost use Rattle.std.specs.Prelude.{◌≡◌, ◌+◌, ◌<◌, ◌≤◌, nat_lt, ℕ, List, None, true, false, [], ◌∷◌, length, map};
ghost use Rattle.std.specs.Prelude.{replicate, All, IfOk, IfErr, OnOk, OnErr, IfSome, vec_capacity};
ghost use Rattle.crossbeam_queue.specs.Passes.{view, IsPassOf, ruled_capacity};
ghost use Rattle.tp_board.specs.Boards.{NewRefuses};
ghost use Rattle.tp_board.specs.Views.{first_of, newcomer};
ghost use Rattle.tp_board.specs.Calls.{Makes, sees_no_stop, sees_stop, FinishSays, AbandonSays, StopSays};
ghost use Rattle.tp_board.specs.Ledgers.{Balances, join_of_all};
ghost use Rattle.tp_board.specs.Counting.{hand_list};
ghost use Rattle.tp_board.specs.Limits.{most_packets};
ghost use Rattle.tp_stream.specs.Queues.{hand, feeder, item_of, put, MayPut, Waits};
ghost use Rattle.crossbeam_queue.specs.Fifo.{Held};
ghost use Rattle.tp_board.specs.Openings.{InRange};
ghost use Rattle.tp_board.specs.Sources.{NextSays, claim_of};
ghost use Rattle.tp_stream.specs.Streams.{StreamView, stream_of, hand_of_parts, fresh_hand, seen_of, hand_seen};
ghost use Rattle.tp_stream.specs.Streams.{hand_progress, feeder_seen, all_seen};
ghost use Rattle.tp_stream.specs.Streams.{IsStream, IsHandOf, IsFeederOf, new_hand_of, new_feeder_of};
ghost use Rattle.tp_stream.specs.Streams.{NextAfter, NextMakes, IsAllPushed, FeedSays, IsLeft, Agrees};

use crate::hand::{Fed, Feeder, StreamHand, StreamLedger};
use crate::queue::{Item, Queue, QueuePass, drain_rest, feed, join, new_hand, open_queue, take};
use crate::tally::{
    DONE, LOST, STOP, Tally, Token, another_seat, join_seats, look_stop, open_tally, report_done,
    report_lost, set_stop,
};
use crate::waiting::Waiting;
use std::alloc::Global;
use std::marker::Model;
use std::sync::Wait;
use tp_board::{
    BoardFault, Claim, Ledger, MAX_MEMBERS, MAX_PACKETS, Packet, Work, WorkSource, with_bytes,
};

/// Packets that one thread feeds in order of number, through a queue of 32 places, and the members
/// take, each with its own hand. Shared by `&` between their threads.
///
/// No call takes a lock, and none but `new` takes memory. `feed`, `next` and `close` may wait. A hand
/// or a feeder of another stream is against each call's condition.
///
/// ```
/// let packets = [Packet::try_from([7].as_slice())?];
/// let (stream, mut feeder, mut hands) = StreamQueue::new(alloc, &packets, 1)?;
/// assert_eq!(stream.feed(&rt, &mut feeder), Fed::Pushed);
/// assert!(matches!(stream.next(&rt, &mut hands[0]), Work::Packet { number: 0, .. }));
/// assert_eq!(stream.finish(&mut hands[0]), Ok(0));
/// let closed = stream.close(&rt, feeder, hands)?;
/// assert_eq!((closed.pushed, closed.ledger.done), (1, 1));
/// ```
#[derive(Drop)]
pub struct StreamQueue<'p> {
    packets: &'p [Packet],
    members: u32,
    queue: Queue,
    tally: Tally,
    waiting: Waiting,
}

impl<'p> Model for StreamQueue<'p> {
    ghost Value = { StreamView };

    ghost view = { λ s.
        stream_of s.queue.table.shared.table_id s.tally.shared.table_id (map (λ p. p.items) s.packets.now) s.members };

    ghost invariant = { λ s.
        IsStream s.tally.shared.table_id s.tally.shared.key (ruled_capacity s.queue) (length s.packets.now) s.members };
}

/// A4: a hand of the stream is missing. All is handed back as it was.
#[derive(Drop)]
pub struct StreamCloseFault<'p> {
    pub stream: StreamQueue<'p>,
    pub feeder: Feeder,
    pub hands: Vec<StreamHand>,
}

impl<'p> StreamQueue<'p> {
    /// A stream of these packets, in order of number, with a feeder, and a hand for each member. The
    /// members are tested before the packets.
    pub fn new(
        alloc: Global,
        packets: &'p [Packet],
        members: u32,
    ) -> Result<(StreamQueue<'p>, Feeder, Vec<StreamHand>), BoardFault>
        ensures in_range { OnOk result (InRange (length packets.now) members) }
        ensures stream { IfOk result
            (λ r. r.0 ≡ stream_of r.0.queue r.0.tally (map (λ p. p.items) packets.entry.now) members) }
        ensures feeder { IfOk result (λ r. r.1 ≡ new_feeder_of r.0) }
        ensures hands { IfOk result (λ r. r.2.items ≡ replicate members (new_hand_of r.0)) }
        ensures own { IfOk result (λ r. IsFeederOf r.0 r.1 × All (IsHandOf r.0) r.2.items) }
        ensures err { IfErr result (NewRefuses (length packets.now) members) }
    {
        if members == 0 || members > MAX_MEMBERS {
            return Err(BoardFault::Members);
        }
        if packets.len() > MAX_PACKETS as usize {
            return Err(BoardFault::Packets);
        }
        let count = packets.len() as u32;
        let mut hands = Vec::with_capacity(alloc, members as usize)?;
        let (queue, mut pass, first) = open_queue(alloc, count, members)?;
        let (tally, mut token) = open_tally(alloc, count, members + 1)?;
        let seat = another_seat(&tally, &mut token, count, members + 1);
        hands.push_reserved(handed(first, seat, count, members));
        deal_hands(
            &queue, &tally, &mut pass, &mut token, count, members, &mut hands,
        );
        let feeder = Feeder {
            pass,
            token,
            pushed: 0,
            marks: 0,
        };
        let stream = StreamQueue {
            packets,
            members,
            queue,
            tally,
            waiting: Waiting::new(),
        };
        Ok((stream, feeder, hands))
    }

    /// One load of the stop mark and, where that is clear, one try to push the next item: the packets
    /// in order of number, and then one end mark for each member.
    pub fn feed<R: Wait>(&self, rt: &R, feeder: &mut Feeder) -> Fed
        requires { IsFeederOf self.now feeder.old }
        ensures own { IsFeederOf self.now feeder.new }
        ensures says { FeedSays feeder.old result feeder.new }
    {
        if self.finds_stop(feeder) {
            return Fed::Stopped;
        }
        let Some(item) = self.item_due(feeder) else {
            return Fed::Over;
        };
        if self.push(rt, feeder, item) {
            Fed::Pushed
        } else {
            Fed::Full
        }
    }

    // Loads the stop mark: whether it is set.
    fn finds_stop(&self, feeder: &mut Feeder) -> bool
        requires own { IsFeederOf self.now feeder.old }
        ensures own { IsFeederOf self.now feeder.new }
        ensures turn { feeder.new.turn ≡ feeder.old.turn }
        ensures set { result ≡ true → Makes (feeder_seen feeder.old) (sees_stop ∷ []) (feeder_seen feeder.new) }
        ensures clear { result ≡ false → Makes (feeder_seen feeder.old) (sees_no_stop ∷ []) (feeder_seen feeder.new) }
    {
        look_stop(&self.tally, &mut feeder.token) != 0
    }

    // The next item, where not all is pushed.
    fn item_due(&self, feeder: &Feeder) -> Option<Item>
        requires own { IsFeederOf self.now feeder.now }
        ensures some { IfSome result (λ i. MayPut feeder.now.turn × (i ≡ item_of feeder.now.turn)) }
        ensures none { result ≡ None → IsAllPushed feeder.now.turn }
    {
        if feeder.pushed < self.packets.len() as u32 {
            return Some(Item::Number(feeder.pushed));
        }
        if feeder.marks >= self.members {
            return None;
        }
        Some(Item::End)
    }

    // Tries to push the item that is due: whether the queue had room for it.
    fn push<R: Wait>(&self, rt: &R, feeder: &mut Feeder, item: Item) -> bool
        requires own { IsFeederOf self.now feeder.old }
        requires due { MayPut feeder.old.turn × (item ≡ item_of feeder.old.turn) }
        ensures own { IsFeederOf self.now feeder.new }
        ensures seen { feeder_seen feeder.new ≡ feeder_seen feeder.old }
        ensures pushed { result ≡ true → feeder.new.turn ≡ put feeder.old.turn item }
        ensures full { result ≡ false → (feeder.new.turn ≡ feeder.old.turn) × Held 32 (Waits feeder.old.turn) }
    {
        if !feed(rt, &self.queue, &mut feeder.pass, item) {
            return false;
        }
        match item {
            Item::Number(_) => feeder.pushed += 1,
            Item::End => feeder.marks += 1,
        }
        self.waiting.after_push(item);
        true
    }

    /// Sleeps until members have taken half of what the queue has room for, the stream is stopped, or a millisecond has
    /// passed: for the feeder, where the queue was full.
    pub fn wait_for_room<R: Wait>(&self, rt: &R) {
        self.waiting.sleep_as_feeder(rt);
    }

    /// Sets the stop mark, by one step.
    pub fn stop_feeding(&self, feeder: &mut Feeder)
        requires { IsFeederOf self.now feeder.old }
        ensures own { IsFeederOf self.now feeder.new }
        ensures says { StopSays (feeder_seen feeder.old) (feeder_seen feeder.new) }
        ensures turn { feeder.new.turn ≡ feeder.old.turn }
    {
        set_stop(&self.tally, &mut feeder.token);
        self.waiting.wake_all();
    }

    // The next number, the end or the stop, by tries until one has an answer.
    fn claim<R: Wait>(&self, rt: &R, hand: &mut StreamHand) -> Claim
        requires own { IsHandOf self.now hand.old }
        requires empty { hand.old.number ≡ None }
        ensures own { IsHandOf self.now hand.new }
        ensures steps { NextMakes (hand_seen hand.old) result (hand_seen hand.new) }
    {
        if hand.ended {
            return Claim::NoMore;
        }
        if hand.stop_seen {
            return Claim::Stopped;
        }
        let mut has_slept = false;
        for _ in rt.forever() {
            let wakes = self.waiting.wakes();
            if let Some(claimed) = self.try_claim(rt, hand) {
                if has_slept {
                    self.waiting.wake_member();
                }
                return claimed;
            }
            self.waiting.sleep_as_member(rt, wakes);
            has_slept = true;
        }
        unreachable!()
    }

    // One load of the stop mark and, where that is clear, one try to pop. None only where the queue
    // was empty.
    fn try_claim<R: Wait>(&self, rt: &R, hand: &mut StreamHand) -> Option<Claim>
        requires own { IsHandOf self.now hand.old }
        requires empty { hand.old.number ≡ None }
        requires going { ((hand_seen hand.old).ended ≡ 0) × ((hand_seen hand.old).seen.stop ≡ 0) }
        ensures own { IsHandOf self.now hand.new }
        ensures none { result ≡ None →
            (hand.new.number ≡ None) × Makes (hand_seen hand.old) (sees_no_stop ∷ []) (hand_seen hand.new) }
        ensures some { IfSome result (λ claimed. NextAfter [] (hand_seen hand.old) claimed (hand_seen hand.new)) }
    {
        if look_stop(&self.tally, &mut hand.token) != 0 {
            hand.stop_seen = true;
            return Some(Claim::Stopped);
        }
        let item = take(rt, &self.queue, &mut hand.pass)?;
        self.waiting.after_pop(item);
        match item {
            Item::Number(number) => {
                hand.number = Some(number);
                Some(Claim::Packet(number))
            }
            Item::End => {
                hand.ended = true;
                Some(Claim::NoMore)
            }
        }
    }

    /// The accounts of the stream, where all of its hands are here. Then takes out what is left in
    /// the queue.
    pub fn close<R: Wait>(
        self,
        rt: &R,
        feeder: Feeder,
        hands: Vec<StreamHand>,
    ) -> Result<StreamLedger, StreamCloseFault<'p>>
        requires feeder { IsFeederOf self feeder }
        requires hands { All (IsHandOf self) hands.items }
        ensures all { IfOk result (λ l. length hands.items ≡ self.entry.members) }
        ensures ledger { IfOk result
            (λ l. Balances (length self.entry.packets) (all_seen hands.items feeder) l.ledger) }
        ensures pushed { IfOk result (λ l. l.pushed ≡ feeder.turn.pushed) }
        ensures left { IfOk result (λ l. IsLeft (all_seen hands.items feeder) l.pushed) }
        ensures missing { IfErr result (λ f. length hands.items < self.entry.members) }
        ensures err { IfErr result
            (λ f. (f.stream ≡ self.entry) × (f.feeder ≡ feeder) × (f.hands.items ≡ hands.items)) }
    {
        if hands.len() < self.members as usize {
            return Err(StreamCloseFault {
                stream: self,
                feeder,
                hands,
            });
        }
        let pushed = feeder.pushed;
        let (mut pass, token) = self.gather(feeder, hands);
        let drawn = drain_rest(rt, &self.queue, &mut pass, pushed);
        let StreamQueue {
            packets: _,
            members: _,
            queue: _,
            tally,
            waiting: _,
        } = self;
        let closed = tally.close_with(token);
        let done = closed.word(DONE);
        let lost = closed.word(LOST);
        let stop = closed.word(STOP);
        closed.free();
        Ok(StreamLedger {
            pushed,
            ledger: ledger(drawn, done, lost, stop),
        })
    }

    // All passes in one, and all seats in one.
    fn gather(&self, feeder: Feeder, mut rest: Vec<StreamHand>) -> (QueuePass, Token)
        requires feeder { IsFeederOf self.now feeder }
        requires rest { All (IsHandOf self.now) rest.items }
        ensures own { (result.0.table_id ≡ self.now.queue) × (result.0.me.1 ≡ [])
            × (result.1.table_id ≡ self.now.tally) × (result.1.me.1 ≡ []) }
        ensures view { (numbers : List ℕ) ×
            (seen_of (view result.0) result.1.me.0 numbers ≡
            join_of_all (feeder_seen feeder) (map hand_seen rest.items)) }
        ensures agrees { Agrees (join_of_all (feeder_seen feeder) (map hand_seen rest.items)) }
        ensures sizes { ((view result.0).packets ≡ length self.now.packets)
            × ((view result.0).members ≡ self.now.members)
            × ((view result.0).pushed ≡ feeder.turn.pushed) }
        ensures parts { ((view result.0).parts ≡ length rest.items + 1)
            × (result.1.me.0.parts ≡ length rest.items + 1) }
    {
        let mut pass = feeder.pass;
        let mut token = feeder.token;
        while let Some(next) = rest.pop() {
            join(&self.queue, &mut pass, next.pass);
            join_seats(&self.tally, &mut token, next.token);
        }
        (pass, token)
    }
}

// The ledger that the queue and the three words give.
fn ledger(drawn: u32, done: u64, lost: u64, stop: u64) -> Ledger
    requires { done + lost ≤ drawn }
    ensures drawn { result.drawn ≡ drawn }
    ensures done { result.done ≡ done }
    ensures lost { result.lost ≡ lost }
    ensures in_hand { drawn ≡ done + lost + result.in_hand }
    ensures stopped { result.stopped ≡ nat_lt 0 stop }
{
    Ledger {
        drawn,
        done: done as u32,
        lost: lost as u32,
        in_hand: (u64::from(drawn) - done - lost) as u32,
        stopped: stop > 0,
    }
}

// A hand for each member behind the first, cut from the pass and the seat that feed.
fn deal_hands(
    queue: &Queue,
    tally: &Tally,
    pass: &mut QueuePass,
    token: &mut Token,
    packets: u32,
    members: u32,
    hands: &mut Vec<StreamHand>,
)
    requires queue { IsPassOf queue.now pass.old × (view pass.old ≡ feeder packets members members) }
    requires tally { (token.old.table_id ≡ tally.now.shared.table_id) × (tally.now.shared.table_id.words ≡ 3) }
    requires seats { token.old.me ≡ (newcomer packets members, []) }
    requires sizes { InRange packets members }
    requires first { hands.old.items ≡
        fresh_hand queue.now.table.shared.table_id tally.now.shared.table_id packets members ∷ [] }
    requires room { members ≤ vec_capacity hands.old }
    ensures pass { IsPassOf queue.now pass.new × (view pass.new ≡ feeder packets members 1) }
    ensures token { (token.new.table_id ≡ token.old.table_id) × (token.new.me ≡ (newcomer packets 1, [])) }
    ensures hands { hands.new.items ≡
        replicate members (fresh_hand queue.now.table.shared.table_id tally.now.shared.table_id packets members) }
{
    for made in 1..members {
        let other = new_hand(queue, pass);
        let seat = another_seat(tally, token, packets, members + 1 - made);
        hands.push_reserved(handed(other, seat, packets, members));
    }
}

// The hand of one member, which has made no step.
fn handed(pass: QueuePass, token: Token, packets: u32, members: u32) -> StreamHand
    requires pass { (view pass ≡ hand packets members) × (pass.me.1 ≡ []) }
    requires token { token.me ≡ (newcomer packets 1, []) }
    requires few { packets ≤ most_packets }
    ensures { result ≡ hand_of_parts pass.table_id token.table_id (hand packets members) (newcomer packets 1) None }
{
    StreamHand {
        pass,
        token,
        number: None,
        ended: false,
        stop_seen: false,
    }
}

impl<'p> WorkSource for StreamQueue<'p> {
    ghost use Rattle.tp_board.specs.declared.answer.BoardFault.TheVariants.{EmptyHand};
    ghost use Rattle.tp_board.specs.Sources.{HandFinished, HandAbandoned};

    type Hand = StreamHand;

    ghost is_own = { IsHandOf };

    ghost progress = { hand_progress };

    ghost packets = { λ s. s.packets };

    /// One load of the stop mark and, where that is clear, one try to pop; again until it has an
    /// answer. An end mark is NoMore. It may wait.
    fn next(&self, rt: &impl Wait, hand: &mut StreamHand) -> Work
        requires own { IsHandOf self.now hand.old }
        requires empty { (hand_progress hand.old).in_hand ≡ None }
        ensures own { IsHandOf self.now hand.new }
        ensures work { NextSays self.now.packets (hand_progress hand.old) result (hand_progress hand.new) }
        ensures steps { NextMakes (hand_seen hand.old) (claim_of result) (hand_seen hand.new) }
    {
        with_bytes(self.claim(rt, hand), self.packets)
    }

    /// One addition to the count of packets done.
    fn finish(&self, hand: &mut StreamHand) -> Result<u32, BoardFault>
        requires { IsHandOf self.now hand.old }
        ensures own { IsHandOf self.now hand.new }
        ensures ok { IfOk result (λ n. HandFinished (hand_progress hand.old) n (hand_progress hand.new)) }
        ensures err { IfErr result (λ e. e ≡ EmptyHand) }
        ensures empty { OnErr result ((hand_progress hand.old).in_hand ≡ None) }
        ensures unchanged { OnErr result (hand.new ≡ hand.old) }
        ensures steps { IfOk result (λ n. FinishSays (hand_seen hand.old) n (hand_seen hand.new)) }
    {
        let Some(number) = hand.number else {
            return Err(BoardFault::EmptyHand);
        };
        report_done(&self.tally, &mut hand.token, number);
        hand.number = None;
        Ok(number)
    }

    /// One addition to the count of packets lost.
    fn abandon(&self, hand: &mut StreamHand) -> Result<u32, BoardFault>
        requires { IsHandOf self.now hand.old }
        ensures own { IsHandOf self.now hand.new }
        ensures ok { IfOk result (λ n. HandAbandoned (hand_progress hand.old) n (hand_progress hand.new)) }
        ensures err { IfErr result (λ e. e ≡ EmptyHand) }
        ensures empty { OnErr result ((hand_progress hand.old).in_hand ≡ None) }
        ensures unchanged { OnErr result (hand.new ≡ hand.old) }
        ensures steps { IfOk result (λ n. AbandonSays (hand_seen hand.old) n (hand_seen hand.new)) }
    {
        let Some(number) = hand.number else {
            return Err(BoardFault::EmptyHand);
        };
        report_lost(&self.tally, &mut hand.token, number);
        hand.number = None;
        Ok(number)
    }

    /// Sets the stop mark, by one step.
    fn stop(&self, hand: &mut StreamHand)
        requires { IsHandOf self.now hand.old }
        ensures own { IsHandOf self.now hand.new }
        ensures called { hand_progress hand.new ≡ record (hand_progress hand.old) { stop_called = true } }
        ensures steps { StopSays (hand_seen hand.old) (hand_seen hand.new) }
    {
        set_stop(&self.tally, &mut hand.token);
        self.waiting.wake_all();
    }
}
