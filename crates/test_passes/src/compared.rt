//! The answer of the passes over whole tables, beside that of `check_states`.

ghost use Rattle.std.specs.Prelude.{◌≡◌};
ghost use Rattle.tp_flow.specs.NestRanges.{ranges};
ghost use Rattle.tp_state.specs.Conditions.{HasGoodLoops};

use crate::codes::image_of;
use crate::whole::{Whole, asked};
use std::process::Abort;
use tp_check::{Table, check_states};
use tp_decode::{Listing, decode};
use tp_flow::{Nest, check_flow};
use tp_image::{Image, read_image};
use tp_state::{State, StateFault};

/// How many codes are compared.
const CODES: u32 = 20_000;

/// Of each kind there are more than this.
const MANY: u32 = CODES / 20;

/// More seeds than it takes to find these.
const MAX_SEEDS: u64 = 60_000;

/// More passes than any of these codes takes.
const MAX_PASSES: u32 = 1_000;

/// How many codes of each kind were compared.
#[derive(Clone, Copy, Debug, Default, PartialEq, Eq)]
struct Counts {
    /// Accepted after a pass or two.
    accepted_soon: u32,
    /// Accepted after more.
    accepted_late: u32,
    /// Refused in the first pass.
    refused_first: u32,
    /// Refused in the second.
    refused_second: u32,
    /// Refused later.
    refused_late: u32,
}

impl Counts {
    fn all(self) -> u32 {
        let accepted = self.accepted_soon.saturating_add(self.accepted_late);
        let later = self.refused_second.saturating_add(self.refused_late);
        accepted
            .saturating_add(self.refused_first)
            .saturating_add(later)
    }

    fn count(&mut self, is_refused: bool, passes: u32) {
        let kind = match (is_refused, passes) {
            (false, 0..=2) => &mut self.accepted_soon,
            (false, _) => &mut self.accepted_late,
            (true, 0..=1) => &mut self.refused_first,
            (true, 2) => &mut self.refused_second,
            (true, _) => &mut self.refused_late,
        };
        *kind = kind.saturating_add(1);
    }

    /// That there are many of each kind.
    fn assert_each(self, rt: &impl Abort) {
        assert!(rt; self.accepted_soon > MANY, "accepted in {self:?}");
        assert!(rt; self.accepted_late > MANY, "accepted late in {self:?}");
        assert!(rt;
            self.refused_first > MANY,
            "refused in the first pass in {self:?}"
        );
        assert!(rt;
            self.refused_second > MANY,
            "refused in the second pass in {self:?}"
        );
        assert!(rt; self.refused_late > MANY, "refused late in {self:?}");
    }
}

/// The answer of the passes over whole tables, and how many were made.
#[derive(Drop)]
struct Found {
    table: Whole,
    refusal: Option<StateFault>,
    passes: u32,
}

/// Passes are made until one changes nothing, or refuses.
fn make_found(
    rt: &(impl Abort + AllocGlobal),
    image: &Image,
    listing: &Listing,
    nest: &Nest,
) -> Found
    requires good { HasGoodLoops image.now }
    requires nest { nest.now ≡ ranges image.now.loops }
{
    let mut table = Whole::first(rt.alloc(), image).expect(rt, "memory");
    for passes in 1..MAX_PASSES {
        match table.pass(rt.alloc(), image, listing, nest) {
            Ok(true) => {}
            Ok(false) => {
                return Found {
                    table,
                    refusal: None,
                    passes,
                };
            }
            Err(fault) => {
                return Found {
                    table,
                    refusal: Some(fault),
                    passes,
                };
            }
        }
    }
    panic!(rt; "the passes do not end");
}

/// Whether a state is kept at an address: the first, a loop's head, and one to which two edges lead.
fn is_kept(image: &Image, listing: &Listing, nest: &Nest, at: usize) -> bool {
    let mut leading = 0u32;
    for i in 0..listing.len() {
        if let Some(place) = listing.get(i) {
            for edge in asked(place.instr) {
                if nest.target(place.at, place.next, place.instr, *edge) == Some(at) {
                    leading = leading.saturating_add(1);
                }
            }
        }
    }
    let is_head = image.loops.iter().any(|row| row.head as usize == at);
    at == 0 || is_head || leading >= 2
}

/// Whether two states say the same, of this many words.
fn are_alike(state: &State, other: &State, words: usize) -> bool {
    let registers = (state.a, state.b, state.c) == (other.a, other.b, other.c);
    let mut cells = true;
    for x in 0..words {
        cells = cells && state.cells.get(x) == other.cells.get(x);
    }
    registers && cells && state.wptr == other.wptr && state.phase == other.phase
}

/// Whether a table keeps the states of a whole one at the addresses where states are kept, by rising address, and no
/// other.
fn keeps(table: &Table, whole: &Whole, image: &Image, listing: &Listing, nest: &Nest) -> bool {
    let mut kept = 0;
    let mut alike = true;
    for at in 0..whole.states.len() {
        if let Some(Some(state)) = whole.states.get(at)
            && is_kept(image, listing, nest, at)
        {
            alike = alike
                && match table.states.get(kept) {
                    Some((place, other)) => {
                        *place as usize == at && are_alike(state, other, image.workspace as usize)
                    }
                    None => false,
                };
            kept = kept.saturating_add(1);
        }
    }
    alike && kept == table.kept()
}

/// One code is compared and counted, if its flow passes.
fn compare(rt: &(impl Abort + AllocGlobal), seed: u64, counts: &mut Counts) {
    let bytes = image_of(rt.alloc(), seed).expect(rt, "memory");
    let image = read_image(rt.alloc(), &bytes).expect(rt, "an image");
    let listing = decode(rt.alloc(), &image.code).expect(rt, "a listing");
    let Ok(nest) = check_flow(&image, &listing) else {
        return;
    };
    let Found {
        table,
        refusal,
        passes,
    } = make_found(rt, &image, &listing, &nest);
    match check_states(rt.alloc(), &image, &listing, &nest) {
        Ok(kept) => {
            assert_eq!(rt; refusal, None, "seed {seed}");
            assert!(rt;
                keeps(&kept, &table, &image, &listing, &nest),
                "states of seed {seed}"
            );
        }
        Err(fault) => assert_eq!(rt; refusal, Some(fault), "seed {seed}"),
    }
    counts.count(refusal.is_some(), passes);
}

#[test]
fn agrees_with_the_passes_over_whole_tables(rt: HostRuntime) {
    let mut counts = Counts::default();
    for seed in 0..MAX_SEEDS {
        if counts.all() < CODES {
            compare(&rt, seed, &mut counts);
        }
    }
    assert_eq!(rt; counts.all(), CODES);
    counts.assert_each(&rt);
}
