// Rule 11, from places: whether some byte of a load that stands is not the byte that the rule gives.
#![tactic(auto)]

ghost use Rattle.std.specs.Prelude.{◌≡◌, List, ℕ, ◌<◌, ◌≤◌, get_or};
ghost use Rattle.base.specs.Lists.{any};
ghost use Rattle.model.specs.Rules.{rule11, broken};
ghost use Rattle.record_decoded.specs.Kinds.{meant};
ghost use Rattle.record_decoded.specs.Decoded.{instruction_at, execution_of};
ghost use Rattle.relation_places.specs.Places.{Placed};
ghost use Rattle.judge_sights.specs.Sights.{seen_byte, wrote_byte, data_byte, writes_to, same_processor, read_no, local_no, remote_no, may_give, visible_by, makes_local, local_by, latest_with, latest_by, read_by, sight_broken, load_broken};

use record_decoded::initial::initial_byte;
use record_decoded::kind::{Kind, Role, is_load, is_store, kind_of, written_from};
use record_decoded::number::number_at;
use record_decoded::position::Position;
use record_decoded::types::{
    DATA_STRIDE, Execution, InstructionNo, Instructions, OperationNo, wide,
};
use relation_places::{ABSENT, before, place_of};

// The kind of instruction i.
#[tactic(auto, unfolding(record_decoded::specs::Decoded::instruction_at))]
fn kind_at(is: &Instructions, i: InstructionNo) -> Kind
    requires { i.0 < 40 }
    ensures { meant result ≡ (instruction_at is.now i.0).kind }
{
    kind_of(is.kinds[i.0])
}

// The first address that instruction i accesses.
fn address_of(is: &Instructions, i: InstructionNo) -> usize
    requires { i.0 < 40 }
    ensures { (result ≡ get_or is.now.addresses i.0 0) × (result < 256) }
{
    wide(is.addresses[i.0])
}

// How many addresses instruction i accesses.
fn size_of(is: &Instructions, i: InstructionNo) -> usize
    requires { i.0 < 40 }
    ensures { (result ≡ get_or is.now.sizes i.0 0) × (result < 256) }
{
    wide(is.sizes[i.0])
}

// Byte k of instruction i's size, from a place of its data bytes on.
fn data_byte(is: &Instructions, i: InstructionNo, from: usize, k: usize) -> u8
    requires { (i.0 < 40) × (from ≤ 8) }
    ensures { result ≡ data_byte is.now i.0 from k }
{
    if k < size_of(is, i) && k < DATA_STRIDE - from {
        is.bytes[DATA_STRIDE * i.0 + from + k]
    } else {
        0
    }
}

// Byte k of what instruction i saw.
#[tactic(auto, unfolding(crate::specs::Sights::seen_byte, crate::specs::Sights::data_byte, model::specs::Questions::seen_of, record_decoded::specs::Decoded::instruction_at))]
fn seen_byte(is: &Instructions, i: InstructionNo, k: usize) -> u8
    requires { i.0 < 40 }
    ensures { result ≡ seen_byte is.now i.0 k }
{
    if is_load(kind_at(is, i)) {
        data_byte(is, i, 0, k)
    } else {
        0
    }
}

// Byte k of what instruction i wrote. Beside `seen_byte`, with which it shares `data_byte`: each is held to a definition of its own, and as one function both would stand in its clause.
#[tactic(auto, unfolding(crate::specs::Sights::wrote_byte, crate::specs::Sights::data_byte, model::specs::Questions::wrote_of, record_decoded::specs::Decoded::instruction_at))]
fn wrote_byte(is: &Instructions, i: InstructionNo, k: usize) -> u8
    requires { i.0 < 40 }
    ensures { result ≡ wrote_byte is.now i.0 k }
{
    let kind = kind_at(is, i);
    if is_store(kind) {
        data_byte(is, i, written_from(kind), k)
    } else {
        0
    }
}

// The latest so far: the place after its operation, 0 with none, and the byte it gives.
#[derive(Clone, Copy)]
struct Latest {
    next: usize,
    value: u8,
}

// A load's sight of the byte at an address, where the operations stand at these places.
#[derive(Clone, Copy)]
struct Sight<'a> {
    instructions: &'a Instructions,
    places: &'a [u8; Position::LIMIT],
    load: InstructionNo,
    address: usize,
    ghost small: { (instructions.now.count ≤ 40) × (load.0 < 40) },
}

impl Sight<'_> {
    // The number of the load's R.
    #[tactic(auto, unfolding(crate::specs::Sights::read_no))]
    fn read_no(&self) -> OperationNo
        ensures { result.0 ≡ read_no self.now.instructions.now self.now.load.0 }
    {
        number_at(*self.instructions, self.load, Role::R)
    }

    // The number of store w's LV.
    #[tactic(auto, unfolding(crate::specs::Sights::local_no))]
    fn local_no(&self, w: InstructionNo) -> OperationNo
        requires { w.0 < 40 }
        ensures { result.0 ≡ local_no self.now.instructions.now w.0 }
    {
        number_at(*self.instructions, w, Role::LV)
    }

    // The number of store w's RV to the load's processor.
    #[tactic(auto, unfolding(crate::specs::Sights::remote_no, record_decoded::specs::Decoded::instruction_at))]
    fn remote_no(&self, w: InstructionNo) -> OperationNo
        requires { w.0 < 40 }
        ensures { result.0 ≡ remote_no self.now.instructions.now self.now.load.0 w.0 }
    {
        let processor = wide(self.instructions.processors[self.load.0]);
        number_at(*self.instructions, w, Role::RV(processor))
    }

    // Whether instruction w is a store to the byte.
    #[tactic(auto, unfolding(crate::specs::Sights::writes_to, model::specs::Rules::accesses, record_decoded::specs::Decoded::instruction_at))]
    fn writes_to(&self, w: InstructionNo) -> bool
        requires { w.0 < 40 }
        ensures { result ≡ writes_to self.now.instructions.now self.now.address w.0 }
    {
        let from = address_of(self.instructions, w);
        let end = from + size_of(self.instructions, w);
        is_store(kind_at(self.instructions, w)) && from <= self.address && self.address < end
    }

    // Whether instruction w is of the load's processor.
    #[tactic(auto, unfolding(crate::specs::Sights::same_processor, record_decoded::specs::Decoded::instruction_at))]
    fn is_own(&self, w: InstructionNo) -> bool
        requires { w.0 < 40 }
        ensures { result ≡ same_processor self.now.instructions.now self.now.load.0 w.0 }
    {
        let processors = &self.instructions.processors;
        processors[w.0] == processors[self.load.0]
    }

    // Whether store w makes the load local for the byte.
    #[tactic(auto, unfolding(crate::specs::Sights::makes_local))]
    fn makes_local(&self, w: InstructionNo) -> bool
        requires { w.0 < 40 }
        ensures { result ≡ makes_local self.now.instructions.now self.now.places.now self.now.load.0 self.now.address w.0 }
    {
        self.writes_to(w)
            && self.is_own(w)
            && before(self.places, self.local_no(w), self.read_no())
            && before(self.places, self.read_no(), self.remote_no(w))
    }

    // Whether the load is local for the byte.
    fn is_local(&self) -> bool
        ensures { result ≡ local_by self.now.instructions.now self.now.places.now self.now.load.0 self.now.address }
    {
        (0..self.instructions.count).any(|w| self.makes_local(InstructionNo(w)))
    }

    // Whether store w may give the load its byte.
    #[tactic(auto, unfolding(crate::specs::Sights::may_give))]
    fn may_give(&self, w: InstructionNo, local: bool) -> bool
        requires { w.0 < 40 }
        ensures { result ≡ may_give self.now.instructions.now self.now.load.0 self.now.address local w.0 }
    {
        self.writes_to(w) && (!local || self.is_own(w))
    }

    // The operation that makes store w visible to the load.
    #[tactic(auto, unfolding(crate::specs::Sights::visible_by))]
    fn visible_by(&self, w: InstructionNo, local: bool) -> OperationNo
        requires { w.0 < 40 }
        ensures { result.0 ≡ visible_by self.now.instructions.now self.now.load.0 local w.0 }
    {
        if local {
            self.local_no(w)
        } else {
            self.remote_no(w)
        }
    }

    // The latest before R, store w taken in.
    #[tactic(auto, unfolding(crate::specs::Sights::latest_with, crate::specs::Sights::later_by, record_decoded::specs::Decoded::instruction_at))]
    fn latest_with(&self, w: InstructionNo, local: bool, latest: Latest) -> Latest
        requires { w.0 < 40 }
        ensures { result ≡ latest_with self.now.instructions.now self.now.places.now self.now.load.0 self.now.address local w.0 latest }
    {
        if !self.may_give(w, local) {
            return latest;
        }
        let place = wide(place_of(self.places, self.visible_by(w, local)));
        let reads = wide(place_of(self.places, self.read_no()));
        if reads <= place || place < latest.next {
            return latest;
        }
        let k = self.address - address_of(self.instructions, w);
        Latest {
            next: place + 1,
            value: wrote_byte(self.instructions, w, k),
        }
    }

    // The byte of the latest store before R; with none, the initial byte.
    fn latest_byte(&self, local: bool, initial: u8) -> u8
        ensures { result ≡ latest_by self.now.instructions.now self.now.places.now self.now.load.0 self.now.address local initial }
    {
        let mut latest = Latest {
            next: 0,
            value: initial,
        };
        for w in 0..self.instructions.count {
            latest = self.latest_with(InstructionNo(w), local, latest);
        }
        latest.value
    }

    // The byte that the rule has the load see, where the address has this initial byte.
    #[tactic(auto, unfolding(crate::specs::Sights::read_by))]
    fn byte_read(&self, initial: u8) -> u8
        ensures { result ≡ read_by self.now.instructions.now self.now.places.now self.now.load.0 self.now.address initial }
    {
        self.latest_byte(self.is_local(), initial)
    }
}

// Whether the load stands and its byte k is not the one that the rule gives. Of the record's initial bytes it reads that of the byte's own address.
#[tactic(auto, unfolding(crate::specs::Sights::sight_broken, crate::specs::Sights::read_at, record_decoded::specs::Decoded::instruction_at))]
fn sight_broken<'a>(
    bytes: &[u8],
    x: &'a Execution,
    places: &'a [u8; Position::LIMIT],
    load: InstructionNo,
    k: usize,
) -> bool
    requires { (x.now.instructions.count ≤ 40) × (x.now.lines.count ≤ 8) × (load.0 < 40) × (k < 256) }
    ensures { result ≡ sight_broken bytes.now x.now places.now load.0 k }
{
    let instructions = &x.instructions;
    let from = address_of(instructions, load);
    let address = from + k;
    let sight = Sight {
        instructions,
        places,
        load,
        address,
    };
    if place_of(places, sight.read_no()) >= ABSENT {
        return false;
    }
    let initial = initial_byte(bytes, x.lines.count, address);
    sight.byte_read(initial) != seen_byte(instructions, load, k)
}

// Whether instruction i is a load that breaks the rule.
pub fn load_broken(
    bytes: &[u8],
    x: &Execution,
    places: &[u8; Position::LIMIT],
    i: InstructionNo,
) -> bool
    requires { (x.now.instructions.count ≤ 40) × (x.now.lines.count ≤ 8) × (i.0 < 40) }
    ensures { result ≡ load_broken bytes.now x.now places.now i.0 }
{
    let instructions = &x.instructions;
    is_load(kind_at(instructions, i))
        && (0..size_of(instructions, i)).any(|k| sight_broken(bytes, x, places, i, k))
}

// Whether rule 11 is broken by an order of which these are the places.
pub fn sights_broken(bytes: &[u8], x: &Execution, places: &[u8; Position::LIMIT]) -> bool
    requires { (x.now.instructions.count ≤ 40) × (x.now.lines.count ≤ 8) }
    ensures { (n : ℕ) (xs : List ℕ) → Placed n xs places.now → result ≡ any (broken xs) (rule11 (execution_of bytes.now x.now)) }
{
    (0..x.instructions.count).any(|i| load_broken(bytes, x, places, InstructionNo(i)))
}
