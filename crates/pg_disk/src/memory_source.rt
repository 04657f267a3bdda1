// A source in memory.
ghost use Rattle.std.specs.Prelude.{◌≡◌, ◌≤◌, ◌+◌, ◌^◌, ◌-◌, ◌↔◌, ◌++◌, min, List, ℕ, Some, [], length, take, drop, vec_len, Contains, IsErr, IfOk, OnOk, OnErr};
ghost use Rattle.pg_disk.specs.Counts.{CountsSource};
ghost use Rattle.pg_disk.specs.Reads.{TakesFrom};

use crate::{Failed, Source};
use std::alloc::{AllocError, Global};

/// Bytes in memory to read in order, which fails at the reads that are named.
#[derive(Debug)]
pub struct MemSource {
    bytes: Vec<u8>,
    at: usize,
    reads: u64,
    named_reads: Vec<u64>,
    faults: u64,
    ghost within: { at ≤ vec_len bytes },
}

// Written out, so that a test lets a source go by one call.
impl Drop for MemSource {
    fn drop(self) {
        let MemSource {
            bytes: _bytes,
            at: _at,
            reads: _reads,
            named_reads: _named_reads,
            faults: _faults,
        } = self;
    }
}

impl MemSource {
    ghost use Rattle.pg_disk.specs.MemSource.{rest_of, faults_of, named_reads, next_read};

    /// A source of these bytes.
    pub fn new(alloc: Global, bytes: &[u8]) -> Result<Self, AllocError>
        ensures rest { IfOk result (λ s. rest_of s ≡ bytes.now) }
        ensures faults { IfOk result (λ s. faults_of s ≡ 0) }
        ensures names { IfOk result (λ s. named_reads s ≡ []) }
        ensures next { IfOk result (λ s. next_read s ≡ 1) }
    {
        Ok(MemSource {
            bytes: Vec::from_slice(alloc, bytes)?,
            at: 0,
            reads: 0,
            named_reads: Vec::new(alloc),
            faults: 0,
        })
    }

    /// Names reads that are to fail, counted from 1, beside those that are named already.
    pub fn fail(&mut self, calls: &[u64]) -> Result<(), AllocError>
        ensures ok { OnOk result (named_reads self.new ≡ named_reads self.old ++ calls.now) }
        ensures err { OnErr result (named_reads self.new ≡ named_reads self.old) }
        ensures rest { rest_of self.new ≡ rest_of self.old }
        ensures faults { faults_of self.new ≡ faults_of self.old }
        ensures next { next_read self.new ≡ next_read self.old }
    {
        self.named_reads.extend_from_slice(calls)
    }
}

impl Source for MemSource {
    ghost use Rattle.pg_disk.specs.MemSource.{rest_of, rest_told, faults_of, named_reads, next_read};

    ghost rest = { rest_told };

    ghost faults = { faults_of };

    fn read(&mut self, buf: &mut [u8]) -> Result<usize, Failed>
        ensures count { IfOk result (λ n. n ≤ length buf.old) }
        ensures bytes { IfOk result (λ n. TakesFrom (rest_told self.old) (rest_told self.new) (take n buf.new)) }
        ensures behind { IfOk result (λ n. drop n buf.new ≡ drop n buf.old) }
        ensures at_end { IfOk result (λ n. n ≡ 0 → (length buf.old ≡ 0 → ⊥) → (xs : _) → rest_told self.old ≡ Some xs
            → xs ≡ []) }
        ensures err { OnErr result (rest_told self.new ≡ rest_told self.old) }
        ensures cause { CountsSource (faults_of self.old) (faults_of self.new) result }
        ensures fills { IfOk result (λ n. n ≡ min (length buf.old) (length (rest_of self.old))) }
        ensures named { IsErr result ↔ Contains (named_reads self.old) (next_read self.old) }
        ensures names { named_reads self.new ≡ named_reads self.old }
        ensures next { next_read self.new ≡ min (next_read self.old + 1) (2 ^ 64 - 1) }
    {
        self.reads = self.reads.saturating_add(1);
        if self.named_reads.contains(&self.reads) {
            self.faults = self.faults.saturating_add(1);
            return Err(Failed);
        }
        let count = buf.len().min(self.bytes.len() - self.at);
        buf[..count].copy_from_slice(&self.bytes[self.at..self.at + count]);
        self.at += count;
        Ok(count)
    }
}
