//! A sink in memory.

ghost use Rattle.std.specs.Prelude.{◌≡◌, ◌≢◌, ◌<◌, ◌↔◌, [], true, ℕ, min, length, List, Some};
ghost use Rattle.ts_outside.specs.Gaining.{Takes, CountsPut};
ghost use Rattle.ts_outside.specs.Memory.{next_count, fails_at, cut_at, faults_after, Tray};

use crate::script::{count_on, cut_of, fails_at_call};
use crate::sink::{Put, Sink};
use std::alloc::Global;
use std::marker::Model;

/// A sink that keeps its bytes in memory. Put number k, from 0, takes at most
/// `cuts[k mod len]` bytes, but at least one; where there are no cuts it takes the whole piece.
/// Puts whose numbers are in `fails` answer `Failed`.
#[derive(Drop)]
pub struct MemSink {
    held: Vec<u8>,
    cuts: Vec<usize>,
    fails: Vec<u64>,
    puts: u64,
    faults: u64,
}

impl Model for MemSink {
    ghost use Rattle.ts_outside.specs.Memory.{Tray};

    ghost Value = { Tray };

    ghost view = { λ s. record { bytes = s.held.items; cuts = s.cuts.items; fails = s.fails.items; puts = s.puts; faults = s.faults } };
}

impl MemSink {
    /// A sink that holds nothing.
    pub fn new(alloc: Global, cuts: Vec<usize>, fails: Vec<u64>) -> MemSink
        ensures { result ≡ record { bytes = []; cuts = cuts.items; fails = fails.items; puts = 0; faults = 0 } }
    {
        MemSink {
            held: Vec::new(alloc),
            cuts,
            fails,
            puts: 0,
            faults: 0,
        }
    }

    /// The bytes that it holds.
    pub fn bytes(&self) -> &[u8]
        ensures { result.now ≡ self.now.bytes }
    {
        self.held.as_slice()
    }
}

impl Sink for MemSink {
    ghost held = { λ s. Some s.bytes };

    ghost faults = { λ s. s.faults };

    fn put(&mut self, piece: &[u8]) -> Put
        requires { 0 < length piece.now }
        ensures takes { Takes result piece.now (Some self.old.bytes) (Some self.new.bytes) }
        ensures counted { CountsPut result self.old.faults self.new.faults }
        ensures fails { (result ≡ Put.Failed) ↔ (fails_at self.old.fails self.old.puts ≡ true) }
        ensures cut { (n : ℕ) → result ≡ Put.Took n → n ≡ cut_at self.old.cuts self.old.puts (length piece.now) }
        ensures faults { self.new.faults
            ≡ faults_after (fails_at self.old.fails self.old.puts) self.old.faults }
        ensures puts { self.new.puts ≡ next_count self.old.puts }
        ensures cuts { self.new.cuts ≡ self.old.cuts }
        ensures plan { self.new.fails ≡ self.old.fails }
    {
        let put = self.puts;
        self.puts = count_on(put);
        if fails_at_call(&self.fails, put) {
            self.faults = count_on(self.faults);
            return Put::Failed;
        }
        let n = cut_of(&self.cuts, put, piece.len());
        match self.held.extend_from_slice(&piece[..n]) {
            Ok(()) => Put::Took(n),
            Err(_) => Put::NoMemory,
        }
    }
}
