// The floor of the square root from a table, for numbers of 125 or 126 bits.
ghost use Rattle.std.specs.Prelude.{◌≡◌, ◌+◌, ◌-◌, ◌*◌, ◌/◌, ◌^◌, ◌<◌, ◌≤◌, is_some, IfSome};
ghost use Rattle.roots.specs.Quick.{both_roots, served, table_root};
ghost use Rattle.roots.specs.Root.{root};

use crate::reciprocal_table::reciprocal_table;
use crate::root_table::root_table;
use crate::roots::{floor_root, square, with_lower_half};

// The tables of roots and of their reciprocals, which the caller lends.
#[derive(Clone, Copy)]
pub struct Tables<'a> {
    pub roots: &'a [u64; 768],
    pub reciprocals: &'a [u32; 768],
}

// What the root of a number of 125 or 126 bits starts from: `top`, its bits above the lowest 62, and the entries for
// it of the two tables, e and i below. e * 2^17 is within 2^24 below the root of `top`.
#[derive(Clone, Copy)]
struct Start {
    top: u64,
    entry: u64,
    reciprocal: u32,
    ghost full: { 2 ^ 62 ≤ top },
    ghost short: { entry < 2 ^ 15 },
    ghost below: { entry * entry * 2 ^ 34 ≤ top },
    ghost near: { top < entry * entry * 2 ^ 34 + 3 * 2 ^ 53 },
}

impl Start {
    // The start for a number n, if n / 2^116 is from 256 to 1,023 and the entry for it is near: of `root_table`
    // each is (specs/Quick).
    fn of(n: u128, tables: Tables) -> Option<Self>
        ensures served { is_some result ≡ served tables.entry.roots.now n }
        ensures top { IfSome result (λ start. start.top ≡ n / 2 ^ 62) }
    {
        let Tables { roots, reciprocals } = tables;
        let number = (n >> 116) as usize;
        let place = number.checked_sub(256)?;
        let entry = *roots.get(place)?;
        let reciprocal = *reciprocals.get(place)?;
        if entry >= 0x8000 {
            return None;
        }
        let top = (n >> 62) as u64;
        let rest = top.checked_sub(entry * entry * 0x4_0000_0000)?;
        if rest >= 0x60_0000_0000_0000 {
            return None;
        }
        Some(Start {
            top,
            entry,
            reciprocal,
        })
    }

    // Of a hundred numbers top * 2^62 + lo % 2^62, the floor of the root of 99, without a division; the caller tests it. With a for
    // e * 2^17, u for (top - a * a) / (2 * a * a) and i for 2^46 / e: the root of top is nearly a + a * (u - u^2 / 2 + u^3 / 2 - 5 * u^4 / 8),
    // and what it leaves of the number is divided by twice the root, whose reciprocal is nearly (1 - u + 3 * u^2 / 2 - 5 * u^3 / 2) / (2 * a).
    fn near_root(self, lo: u64) -> u64
        ensures { result < 2 ^ 64 - 1 }
    {
        let e = self.entry;
        let i = u64::from(self.reciprocal);
        let rest = (self.top - e * e * 0x4_0000_0000) >> 24;
        let d = (rest * i) >> 32;
        let u = (rest * ((i * i) >> 32)) >> 39;
        let square = u * u;
        let cube = (u * 5) >> 18;
        let p = 0x1_0000_0000 - u / 2 + ((square * (0x1_0000 - cube)) >> 49);
        let q = 0x1_0000_0000 - u + ((square * (0xc000 - cube)) >> 47);
        let half = (i * (q / 2)) >> 31;
        let s = e * 0x2000_0000 + ((d * p) >> 28);
        let low = (self.top << 24).wrapping_add((lo >> 38) % 0x100_0000);
        let left = low.wrapping_sub(s.wrapping_mul(s));
        s * 0x8_0000 + (((left >> 19) % 0x8000_0000 * half) >> 38)
    }

    // The floor of the root of `top`, from e. The start, e * 2^17, is within 2^24 below the root, so that Newton's first
    // step ends within 2^16 of it, and the second less than one above it: the root, or one more. Two divisions, of a word each.
    fn word_root(self) -> u64
        ensures { result ≡ root self.top }
    {
        let top = self.top;
        let start = self.entry * 0x2_0000;
        let near = (start + top / start) / 2;
        let less = (near + top / near) / 2 - 1;
        if 2 * less < top - less * less {
            less + 1
        } else {
            less
        }
    }

    // The floor of the root of the number: by `near_root`, without a division, where its answer passes both tests, and else by
    // three divisions.
    fn root(self, n: u128) -> u64
        requires { self.top ≡ n / 2 ^ 62 }
        ensures { result ≡ root n }
    {
        let lo = (n % 0x1_0000_0000_0000_0000) as u64;
        let r = self.near_root(lo);
        if square(r) <= n && n < square(r + 1) {
            return r;
        }
        with_lower_half(self.top, self.word_root(), lo)
    }
}

// The floor of the square root of a number of 125 or 126 bits, by its entries of the tables, where they serve it.
fn table_root(n: u128, tables: Tables) -> Option<u64>
    ensures { result ≡ table_root tables.entry.roots.now n }
{
    let start = Start::of(n, tables)?;
    Some(start.root(n))
}

// The floor of the square root: from the tables, and the first root where they do not serve.
#[tactic(auto, using(crate::proofs::Entry::root_of_some))]
pub fn quick_root(n: u128, tables: Tables) -> u64
    ensures { result ≡ root n }
{
    table_root(n, tables).unwrap_or_else(|| floor_root(n))
}

#[derive(Clone, Copy, Debug, PartialEq, Eq)]
pub struct Both {
    pub first: u64,
    pub quick: u64,
}

// The root by the first way and from the tables.
pub fn both_roots(n: u128) -> Both
    ensures { result ≡ both_roots n }
{
    let roots = root_table();
    let reciprocals = reciprocal_table();
    let tables = Tables {
        roots: &roots,
        reciprocals: &reciprocals,
    };
    Both {
        first: floor_root(n),
        quick: quick_root(n, tables),
    }
}
