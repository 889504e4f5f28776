//! Chains through hashes that fall into one bucket.

ghost use Rattle.std.specs.Prelude.{◌≡◌, ◌+◌, ◌<◌, ◌≤◌, ◌∷◌, ◌++◌, [], length, slice_index, IfOk, OnOk, OnErr};
ghost use Rattle.wsm_doubles.specs.Chains.{Hashed, bucket_of, hashes_of, last_in};

use std::alloc::{AllocError, Global};
use std::marker::Model;

// A hash, and one more than the number of the last before it in its bucket, 0 where there is none.
#[derive(Clone, Copy)]
pub(crate) struct Link {
    pub(crate) hash: u32,
    pub(crate) before: u32,
}

// Hashes in the order in which they came, each of which is found by its bucket.
#[derive(Drop)]
pub(crate) struct Chains {
    // Of each bucket, one more than the number of its last hash, 0 where it has none.
    heads: Vec<u32>,
    links: Vec<Link>,
}

impl Model for Chains {
    ghost use Rattle.std.specs.Prelude.{length};
    ghost use Rattle.wsm_doubles.specs.Chains.{AreLinked, Hashed, hashes_of};

    ghost Value = { Hashed };

    ghost view = { λ c. record { hashes = hashes_of c.links.items; buckets = length c.heads.items } };

    ghost invariant = { λ c. AreLinked c.heads.items c.links.items };
}

// The bucket of a hash.
fn bucket_of(hash: u32, buckets: usize) -> usize
    requires { 0 < buckets }
    ensures value { result ≡ bucket_of buckets hash }
    ensures within { result < buckets }
{
    hash as usize & (buckets - 1)
}

impl Chains {
    // No hash and no bucket, which takes no memory.
    pub(crate) fn new(alloc: Global) -> Chains
        ensures { result ≡ record { hashes = []; buckets = 0 } }
    {
        Chains {
            heads: Vec::new(alloc),
            links: Vec::new(alloc),
        }
    }

    // No hash, with so many buckets and room for as many hashes. The buckets are used evenly where their number is a power of two.
    pub(crate) fn with_buckets(alloc: Global, buckets: usize) -> Result<Chains, AllocError>
        ensures { IfOk result (λ c. c ≡ record { hashes = []; buckets = buckets }) }
    {
        Ok(Chains {
            heads: Vec::from_elem(alloc, 0u32, buckets)?,
            links: Vec::with_capacity(alloc, buckets)?,
        })
    }

    // The hashes of these, with so many buckets and room for as many hashes.
    fn of_links(alloc: Global, buckets: usize, links: &[Link]) -> Result<Chains, AllocError>
        requires { 0 < buckets }
        ensures { IfOk result (λ c. c ≡ record { hashes = hashes_of links.now; buckets = buckets }) }
    {
        let mut chains = Chains::with_buckets(alloc, buckets)?;
        for link in links {
            chains.push(link.hash)?;
        }
        Ok(chains)
    }

    // The same hashes, with so many buckets.
    pub(crate) fn spread(&self, alloc: Global, buckets: usize) -> Result<Chains, AllocError>
        requires { 0 < buckets }
        ensures { IfOk result (λ c. c ≡ record { hashes = self.now.hashes; buckets = buckets }) }
    {
        Chains::of_links(alloc, buckets, &self.links)
    }

    pub(crate) fn buckets(&self) -> usize
        ensures { result ≡ self.now.buckets }
    {
        self.heads.len()
    }

    // The hash of a number.
    pub(crate) fn hash(&self, number: usize) -> u32
        requires { number < length self.now.hashes }
        ensures { result ≡ slice_index self.now.hashes number }
    {
        self.links[number].hash
    }

    // One more than the number of the last hash in the bucket of a hash, 0 where there is none.
    pub(crate) fn last(&self, hash: u32) -> usize
        requires { 0 < self.now.buckets }
        ensures { result ≡ last_in self.now (bucket_of self.now.buckets hash) (length self.now.hashes) }
    {
        self.heads[bucket_of(hash, self.heads.len())] as usize
    }

    // One more than the number of the last hash before a number that is in its bucket, 0 where there is none.
    pub(crate) fn before(&self, number: usize) -> usize
        requires { number < length self.now.hashes }
        ensures value { result ≡ last_in self.now (bucket_of self.now.buckets (slice_index self.now.hashes number)) number }
        ensures earlier { result ≤ number }
    {
        self.links[number].before as usize
    }

    // Adds a hash. Memory was refused, or no number is left.
    pub(crate) fn push(&mut self, hash: u32) -> Result<(), AllocError>
        requires { 0 < self.old.buckets }
        ensures added { OnOk result (self.new ≡ record { hashes = self.old.hashes ++ hash ∷ []; buckets = self.old.buckets }) }
        ensures unchanged { OnErr result (self.new ≡ self.old) }
    {
        let number = self.links.len();
        if number >= u32::MAX as usize {
            return Err(AllocError);
        }
        let bucket = bucket_of(hash, self.heads.len());
        let before = self.heads[bucket];
        self.links.push(Link { hash, before })?;
        self.heads[bucket] = (number + 1) as u32;
        Ok(())
    }
}
