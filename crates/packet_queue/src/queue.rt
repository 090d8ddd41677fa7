ghost use Rattle.std.specs.Prelude.{◌≡◌, ◌≢◌, ℕ, ◌+◌, ◌<◌, ◌≤◌, ◌==◌, List, [], ◌∷◌, ◌++◌, Bool, true, false, length, slice_index, slice_index_or, slice_set, OnOk, IfOk, vec_len};
ghost use Rattle.packet_queue.specs.Queues.{Queues, queues_of, numbers_of, Threaded, Chained, Head, Lowest, linked, begun};
ghost use Rattle.role_steps.specs.Tables.{first_that};

use crate::tables::filled;
use locus_ids::NoMemory;
use std::alloc::Global;
use std::marker::Model;

/// Stands for no packet.
const NONE: u32 = 4294967295;

/// So many packets a queue takes, with the numbers from 0 on.
pub const NUMBERS: u32 = 262_145;

/// The packets added, each with its circuit, and which of them are under way. A thread leads from each packet to the next
/// of its circuit, and the least of each circuit that is under way is known.
#[derive(Drop)]
pub struct PacketQueue {
    circuits: Vec<u8>,
    underway: Vec<bool>,
    after: Vec<u32>,
    first: Vec<u32>,
    last: Vec<u32>,
    count: u32,
    least: u32,
}

impl Model for PacketQueue {
    ghost Value = { Queues };

    ghost view = { λ q. queues_of q.count q.circuits.items q.underway.items };

    ghost invariant = { λ q. Threaded q.count q.circuits.items q.underway.items q.after.items q.first.items q.last.items × Lowest q.count q.underway.items q.least };
}

/// A packet comes after the last of its circuit.
fn link(after: &mut Vec<u32>, last: u32, n: u32)
    requires { last < n → last < vec_len after.old }
    ensures { after.new.items ≡ linked after.old.items last n }
{
    if last < n {
        after[last as usize] = n;
    }
}

/// A packet is the first of its circuit if there is none.
fn begin(first: &mut Vec<u32>, circuit: usize, n: u32)
    requires { circuit < vec_len first.old }
    ensures { first.new.items ≡ begun first.old.items circuit n }
{
    if n < first[circuit] {
        first[circuit] = n;
    }
}

/// The first packet of a circuit that is under way, from a packet on.
fn skip(
    after: &[u32],
    underway: &[bool],
    circuits: &[u8],
    count: u32,
    circuit: u8,
    from: u32,
) -> u32
    requires chained { Chained count circuits.now after.now }
    requires room { (count ≤ length after.now) × (count ≤ length underway.now) × (count < 4294967295) }
    requires below { (m : ℕ) → m < count → slice_index_or underway.now m false ≡ true → slice_index circuits.now m ≡ circuit → from ≤ m }
    requires there { from < 4294967295 → (from < count) × (slice_index circuits.now from ≡ circuit) }
    ensures { Head count circuits.now underway.now circuit result }
{
    let mut at = from;
    while at != NONE && !underway[at as usize] {
        at = after[at as usize];
    }
    at
}

/// The first packet that is under way, from a packet on.
fn lowest(underway: &[bool], count: u32, from: u32) -> u32
    requires room { count ≤ length underway.now }
    requires order { from ≤ count }
    requires below { (m : ℕ) → m < count → slice_index_or underway.now m false ≡ true → from ≤ m }
    ensures { Lowest count underway.now result }
{
    let mut at = from;
    while at < count && !underway[at as usize] {
        at += 1;
    }
    at
}

/// The least of the heads of the circuits that are up.
fn least_head(first: &[u32], up: &[bool]) -> u32
    requires { length first.now ≡ length up.now }
    ensures below { (j : ℕ) → j < length up.now → slice_index_or up.now j false ≡ true → result ≤ slice_index first.now j }
    ensures there { result < 4294967295 → (j : ℕ) × (j < length up.now) × (slice_index_or up.now j false ≡ true) × (slice_index first.now j ≡ result) }
{
    let mut best = NONE;
    for j in 0..up.len() {
        if up[j] && first[j] < best {
            best = first[j];
        }
    }
    best
}

impl PacketQueue {
    /// No packet is added.
    pub fn new(alloc: Global) -> Result<PacketQueue, NoMemory>
        ensures { IfOk result (λ q. q ≡ record { circuits = []; underway = [] }) }
    {
        Ok(PacketQueue {
            circuits: filled(alloc, NUMBERS as usize, 0)?,
            underway: filled(alloc, NUMBERS as usize, false)?,
            after: filled(alloc, NUMBERS as usize, NONE)?,
            first: filled(alloc, 256, NONE)?,
            last: filled(alloc, 256, NONE)?,
            count: 0,
            least: 0,
        })
    }

    /// The number of packets added, which is the number that the next one will have.
    pub fn len(&self) -> u32
        ensures { result ≡ length self.now.circuits }
    {
        self.count
    }

    /// Adds a packet on this circuit. It is under way.
    pub fn add(&mut self, circuit: u8)
        requires { length self.old.circuits < 262145 }
        ensures circuits { self.new.circuits ≡ self.old.circuits ++ circuit ∷ [] }
        ensures underway { self.new.underway ≡ self.old.underway ++ true ∷ [] }
    {
        let n = self.count;
        let j = circuit as usize;
        self.circuits[n as usize] = circuit;
        self.underway[n as usize] = true;
        self.after[n as usize] = NONE;
        link(&mut self.after, self.last[j], n);
        begin(&mut self.first, j, n);
        self.last[j] = n;
        self.count = n + 1;
    }

    /// The packet is not under way any more, if it was.
    pub fn take(&mut self, k: u32)
        requires { k < length self.old.circuits }
        ensures circuits { self.new.circuits ≡ self.old.circuits }
        ensures underway { self.new.underway ≡ slice_set self.old.underway k false }
    {
        self.underway[k as usize] = false;
        let circuit = self.circuits[k as usize];
        let head = self.first[circuit as usize];
        self.first[circuit as usize] = skip(
            &self.after,
            &self.underway,
            &self.circuits,
            self.count,
            circuit,
            head,
        );
        self.least = lowest(&self.underway, self.count, self.least);
    }

    /// The least packet under way whose circuit is up, or `None` exactly where there is none.
    pub fn next(&self, up: &[bool]) -> Option<u32>
        requires { length up.now ≡ 256 }
        ensures { result ≡ first_that (λ k. slice_index_or up.now (slice_index self.now.circuits k) false) (numbers_of 0 self.now.underway) }
    {
        let least = self.least;
        if least >= self.count {
            return None;
        }
        if up[self.circuits[least as usize] as usize] {
            return Some(least);
        }
        let best = least_head(&self.first, up);
        if best == NONE { None } else { Some(best) }
    }

    /// The circuit of a packet.
    pub fn circuit(&self, k: u32) -> u8
        requires { k < length self.now.circuits }
        ensures { result ≡ slice_index self.now.circuits k }
    {
        self.circuits[k as usize]
    }

    /// The packet is under way.
    pub fn is_underway(&self, k: u32) -> bool
        requires { k < length self.now.circuits }
        ensures { result ≡ slice_index_or self.now.underway k false }
    {
        self.underway[k as usize]
    }

    /// The packets under way, ascending.
    pub fn pending(&self, alloc: Global) -> Result<Vec<u32>, NoMemory>
        ensures { IfOk result (λ v. v.items ≡ numbers_of 0 self.now.underway) }
    {
        let mut made = Vec::new(alloc);
        for k in 0..self.count {
            if self.underway[k as usize] {
                made.push(k)?;
            }
        }
        Ok(made)
    }
}
