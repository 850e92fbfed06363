// docs/METHOD.md, section 1: two pairs of polynomials, and what one row does to them and to their discrepancies at all rows, changed in place.
ghost use Rattle.std.specs.Prelude.{◌≤◌, ◌<◌, ◌≡◌};
ghost use Rattle.poly.specs.Coefficients.{Stored};
ghost use Rattle.field.specs.Primes.{modulus_of};
ghost use Rattle.lanes.specs.ModulusOf.{IsModulusOf};
ghost use Rattle.pairs.specs.Held.{Ready, Fits, Advanced, Stays, Freed, Leads, Stepped};

use field::Prime;
use lanes::Modulus;
use montgomery::Factor;

// Of a pair: its number e, from where on both polynomials are zero, and how many entries the last row wrote of each of them and of their
// discrepancies.
#[derive(Clone, Copy)]
pub struct PairState {
    pub e: usize,
    pub n: usize,
    pub coefficients: usize,
    pub discrepancies: usize,
}

// A pair whose polynomials a and b stand in arrays, with its discrepancies d.
#[derive(Clone, Copy)]
pub struct PairArrays {
    pub state: PairState,
    pub a: [u16; 32],
    pub b: [u16; 32],
    pub d: [u16; 32],
}

// The pair that is advanced at a row. The first leads in a, the second in b.
#[derive(Clone, Copy)]
pub enum Leader {
    First,
    Second,
}

// A row: the prime, its index, how many rows there are, and its point, also as a factor.
#[derive(Clone, Copy)]
pub struct RowStep {
    pub prime: Prime,
    pub index: usize,
    pub rows: usize,
    pub point: u32,
    pub x: Factor,
}

impl PairArrays {
    // The pair stays.
    fn keep(&mut self)
        ensures { Stays self.old self.new }
    {
        self.state.coefficients = 0;
        self.state.discrepancies = 0;
    }

    // The pair times (u - x).
    #[inline(always)]
    fn advance(&mut self, m: &Modulus, r: RowStep, xs: &[u16; 32])
        requires { IsModulusOf r.prime m.now × Fits r × Stored (modulus_of r.prime) xs.now × Ready r self.old }
        ensures { Advanced r m.now xs.now self.old self.new }
    {
        let n = self.state.n + 1;
        let coefficients = lane_linear::times_linear(m, n, r.x, &mut self.a);
        lane_linear::times_linear(m, n, r.x, &mut self.b);
        let discrepancies = lane_differences::times_differences(
            m,
            r.index,
            r.rows,
            xs,
            r.x.form,
            &mut self.d,
        );
        self.state = PairState {
            e: self.state.e + 1,
            n,
            coefficients,
            discrepancies,
        };
    }

    // d times the pair less c times the leading one, where d is that one's discrepancy at the row and c the pair's own: afterwards the pair has
    // none there. Where it had none before, it stays.
    fn clear(&mut self, m: &Modulus, r: RowStep, lead: &PairArrays)
        requires { IsModulusOf r.prime m.now × Fits r × Ready r self.old × Ready r lead.now }
        ensures { Freed r m.now lead.now self.old self.new }
    {
        let k = r.index;
        if self.d[k] == 0 {
            self.keep();
            return;
        }
        let d = montgomery::as_factor(r.prime, lead.d[k] as u32);
        let c = montgomery::as_factor(r.prime, self.d[k] as u32);
        let n = lead.state.n.max(self.state.n);
        let coefficients = lane_combination::combine(m, 0, n, d, &mut self.a, c, &lead.a);
        lane_combination::combine(m, 0, n, d, &mut self.b, c, &lead.b);
        let discrepancies = lane_combination::combine(m, k, r.rows, d, &mut self.d, c, &lead.d);
        self.state = PairState {
            e: self.state.e,
            n,
            coefficients,
            discrepancies,
        };
    }
}

// Of the pairs that have a discrepancy, m and c, the one with the smaller number leads, and the first of equal ones.
fn leading(m: u16, c: u16, first: usize, second: usize) -> Option<Leader>
    ensures { Leads m c first second result }
{
    if m == 0 {
        if c == 0 {
            return None;
        }
        return Some(Leader::Second);
    }
    if c == 0 {
        return Some(Leader::First);
    }
    if first <= second {
        Some(Leader::First)
    } else {
        Some(Leader::Second)
    }
}

// The pair that leads is advanced, and the other freed of its discrepancy.
#[inline(always)]
fn exchange(m: &Modulus, r: RowStep, xs: &[u16; 32], lead: &mut PairArrays, other: &mut PairArrays)
    requires { IsModulusOf r.prime m.now × Fits r × Stored (modulus_of r.prime) xs.now × Ready r lead.old × Ready r other.old }
    ensures { Advanced r m.now xs.now lead.old lead.new × Freed r m.now lead.old other.old other.new }
{
    other.clear(m, r, lead);
    lead.advance(m, r, xs);
}

// One row: afterwards both pairs meet its condition.
pub fn step(
    m: &Modulus,
    r: RowStep,
    xs: &[u16; 32],
    first: &mut PairArrays,
    second: &mut PairArrays,
)
    requires { IsModulusOf r.prime m.now × Fits r × Stored (modulus_of r.prime) xs.now × Ready r first.old × Ready r second.old }
    ensures { Stepped r m.now xs.now first.old second.old first.new second.new }
{
    let k = r.index;
    match leading(first.d[k], second.d[k], first.state.e, second.state.e) {
        None => {
            first.keep();
            second.keep();
        }
        Some(Leader::First) => exchange(m, r, xs, first, second),
        Some(Leader::Second) => exchange(m, r, xs, second, first),
    }
}
