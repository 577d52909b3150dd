// Live rules: the state that is lent for each row, and the calls on it.
#![tactic(auto)]

ghost use Rattle.std.specs.Prelude.{◌≡◌, true, [], ◌∷◌, map, ◌+◌, ◌*◌, ◌≤◌, ◌<◌, length, get_or, take, drop};
ghost use Rattle.refusal.specs.First.{unless};
ghost use Rattle.rule.specs.Put.{overwritten};
ghost use Rattle.live.specs.Kept.{tabulated};
ghost use Rattle.live.specs.State.{empty_watch, is_held, start_outcome, kept_top, older, watch_after, watch_answer};
ghost use Rattle.live.specs.Calls.{add, remove, row};
ghost use Rattle.live.specs.Promise.{StartPromise, CallPromise, AnswerPromise};

use fields::u32_at;
use plan::tops::tops_fit;
use readings::keep_row;
use refusal::Refusal;
use rules::read_rule;
use truths::truths_of;

pub mod readings;
pub mod rules;
pub mod truths;

// How many places there are, and the bytes that each has for its copy of a rule sheet.
pub const PLACES: usize = 4;

pub const RULE_BYTES: usize = 836;

// What is known of the rule at a place: its number of parts, 0 where the place is empty; how many rows came since it was added, 5 standing
// for more; and the truth of each part on the newest row, 1 or 0. An empty place is a number and no None, since any bytes that C hands over
// are a state.
#[repr(C)]
#[derive(Clone, Copy)]
pub struct Watch {
    pub parts: usize,
    pub age: usize,
    pub truths: [u8; 64],
}

// The state: V and the tops, the newest five rows, the oldest first, the places, and the copies of their rules. It has no bool and no
// enum, so that any bytes that C hands over are a state.
#[repr(C)]
#[derive(Clone, Copy)]
pub struct Live {
    pub channels: usize,
    pub tops: [u32; 8],
    pub readings: [u64; 40],
    pub watches: [Watch; 4],
    pub rules: [u8; 3344],
}

// What is told of a place.
#[derive(Clone, Copy)]
pub enum Answer {
    Truth(bool),
    NotYet,
    Empty,
}

// A rule has 1 to 64 parts.
fn is_held(parts: usize) -> bool
    ensures { ((w : Watch) → w.parts ≡ parts → result ≡ is_held w) × ((result ≡ true) → (1 ≤ parts) × (parts ≤ 64)) }
{
    (1 <= parts) & (parts <= 64)
}

fn one_older(age: usize) -> usize
    ensures { (result ≡ older age) × (result ≤ 5) }
{
    if age < 4 { age + 1 } else { 5 }
}

fn watch_after(w: Watch, rule: &[u8], readings: &[u64; 40]) -> Watch
    requires { length rule.now ≡ 836 }
    ensures { result ≡ watch_after readings.now rule.now w }
{
    let parts = w.parts;
    if !is_held(parts) {
        return w;
    }
    let before = w.truths;
    let age = one_older(w.age);
    let truths = truths_of(rule, parts, readings, age, &before);
    Watch { parts, age, truths }
}

// The four places after a row.
fn watch_row(watches: &mut [Watch; 4], rules: &[u8], readings: &[u64; 40])
    requires { length rules.now ≡ 3344 }
    ensures { watches.new ≡ map (λ p. watch_after readings.now (take 836 (drop (836 * p) rules.now)) (get_or watches.old p empty_watch)) (0 ∷ 1 ∷ 2 ∷ 3 ∷ []) }
{
    for place in 0..PLACES {
        let before = watches[place];
        let at = RULE_BYTES * place;
        watches[place] = watch_after(before, &rules[at..at + RULE_BYTES], readings);
    }
}

// A sheet copied to a place. By a loop: of `copy_from_slice` the compiler makes a call of C's `memmove`.
fn copy_rule(rules: &mut [u8; 3344], place: usize, sheet: &[u8])
    requires { (place < 4) × (length sheet.now ≤ 836) }
    ensures { rules.new ≡ overwritten rules.old (836 * place) sheet.now }
{
    let start = RULE_BYTES * place;
    for j in 0..sheet.len() {
        rules[start + j] = sheet[j];
    }
}

// The top of a channel as the state keeps it, 0 where there is no such channel.
fn kept_top(tops: &[u8], v: usize, channel: usize) -> u32
    requires { (length tops.now ≡ 4 * v) × (channel < 8) }
    ensures { result ≡ kept_top tops.now v channel }
{
    if v <= channel {
        return 0;
    }
    u32_at(tops, 4 * channel)
}

fn kept_tops(tops: &[u8], v: usize) -> [u32; 8]
    requires { length tops.now ≡ 4 * v }
    ensures { result ≡ tabulated 8 (kept_top tops.now v) }
{
    let mut kept = [0u32; 8];
    for channel in 0..8 {
        kept[channel] = kept_top(tops, v, channel);
    }
    kept
}

// V is 1 to 8, and there are V tops, none of them negative.
fn start_fits(v: usize, tops: &[u8]) -> bool
    ensures { (unless result Refusal.PlanSizes ≡ start_outcome v tops.now) × ((result ≡ true) → length tops.now ≡ 4 * v) }
{
    if v < 1 {
        return false;
    }
    if 8 < v {
        return false;
    }
    if tops.len() != 4 * v {
        return false;
    }
    tops_fit(tops, v)
}

fn watch_told(w: &Watch) -> Answer
    ensures { result ≡ watch_answer w.now }
{
    let parts = w.parts;
    if !is_held(parts) {
        return Answer::Empty;
    }
    if w.age == 0 {
        return Answer::NotYet;
    }
    Answer::Truth(w.truths[parts - 1] == 1)
}

// A refused call leaves every byte of the state as it was.
impl Live {
    // The empty state over v channels with these tops. Refused: 4.
    pub fn start(&mut self, v: usize, tops: &[u8]) -> Result<(), Refusal>
        ensures { StartPromise self.old v tops.now self.new result }
    {
        if !start_fits(v, tops) {
            return Err(Refusal::PlanSizes);
        }
        self.channels = v;
        self.tops = kept_tops(tops, v);
        self.readings = [0; 40];
        self.watches = [Watch {
            parts: 0,
            age: 0,
            truths: [0; 64],
        }; 4];
        self.rules = [0; 3344];
        Ok(())
    }

    // A rule added at a place. Refused: 1 to 3, 16, then 17.
    pub fn add(&mut self, place: usize, sheet: &[u8]) -> Result<(), Refusal>
        ensures { CallPromise (add place sheet.now) self.old self.new result }
    {
        let sizes = read_rule(sheet, self.channels)?;
        if PLACES <= place {
            return Err(Refusal::Unfitting);
        }
        if is_held(self.watches[place].parts) {
            return Err(Refusal::Unfitting);
        }
        self.watches[place] = Watch {
            parts: sizes.parts,
            age: 0,
            truths: [0; 64],
        };
        copy_rule(&mut self.rules, place, sheet);
        Ok(())
    }

    // The rule at a place dropped. Refused: 17.
    pub fn remove(&mut self, place: usize) -> Result<(), Refusal>
        ensures { CallPromise (remove place) self.old self.new result }
    {
        if PLACES <= place {
            return Err(Refusal::Unfitting);
        }
        if !is_held(self.watches[place].parts) {
            return Err(Refusal::Unfitting);
        }
        self.watches[place] = Watch {
            parts: 0,
            age: 0,
            truths: [0; 64],
        };
        Ok(())
    }

    // A row. Refused: 17.
    pub fn row(&mut self, bytes: &[u8]) -> Result<(), Refusal>
        ensures { CallPromise (row bytes.now) self.old self.new result }
    {
        let channels = self.channels;
        if 8 < channels {
            return Err(Refusal::Unfitting);
        }
        if bytes.len() != 4 * channels {
            return Err(Refusal::Unfitting);
        }
        keep_row(&mut self.readings, &self.tops, bytes, channels);
        watch_row(&mut self.watches, &self.rules, &self.readings);
        Ok(())
    }

    // What is told of a place. Refused: 17.
    pub fn answer(&self, place: usize) -> Result<Answer, Refusal>
        ensures { AnswerPromise self.now place result }
    {
        if PLACES <= place {
            return Err(Refusal::Unfitting);
        }
        Ok(watch_told(&self.watches[place]))
    }
}
