// The first rows that refusals 5 and 6 speak of.
#![tactic(auto)]

ghost use Rattle.std.specs.Prelude.{◌+◌, ◌*◌, ◌<◌, ◌≤◌, true, ◌||◌, ◌≡◌, eqb, leb, get_or};
ghost use Rattle.lists.specs.Counting.{count_below};
ghost use Rattle.lists.specs.Search.{first_below, any_below, Distinct};

// Whether row r has a point or a value that is p or more.
fn row_out_of_range(
    points: &[u32; 32],
    values: &[u32; 128],
    r: usize,
    outputs: usize,
    p: u32,
) -> bool
    requires { (r ≤ 31) × (outputs ≤ 4) }
    ensures { result ≡ (leb p (get_or points.now r 0) || any_below outputs (λ i. leb p (get_or values.now (r * 4 + i) 0))) }
{
    p <= points[r]
        || values[r * 4..r * 4 + outputs]
            .iter()
            .any(|value| p <= *value)
}

// The first row with a point or a value that is p or more.
pub fn first_out_of_range(
    points: &[u32; 32],
    values: &[u32; 128],
    rows: usize,
    outputs: usize,
    p: u32,
) -> Option<u32>
    requires { (rows ≤ 31) × (outputs ≤ 4) }
    ensures { result ≡ first_below rows (λ r. leb p (get_or points.now r 0) || any_below outputs (λ i. leb p (get_or values.now (r * 4 + i) 0))) }
{
    (0..rows)
        .find(|r| row_out_of_range(points, values, *r, outputs, p))
        .map(|r| r as u32)
}

// Whether the point of row r stands in an earlier row.
fn stands_earlier(points: &[u32; 32], r: usize) -> bool
    requires { r < 32 }
    ensures { result ≡ any_below r (λ q. eqb (get_or points.now q 0) (get_or points.now r 0)) }
{
    let point = points[r];
    points[..r].iter().any(|earlier| *earlier == point)
}

// Whether each point is above the one in the row before.
fn rise(points: &[u32; 32], rows: usize) -> bool
    requires { rows ≤ 31 }
    ensures { result ≡ true → Distinct points.now rows }
{
    for r in 1..rows {
        if points[r] <= points[r - 1] {
            return false;
        }
    }
    true
}

// How many of the numbers are x.
fn count_of(numbers: &[u32; 32], x: u32) -> u32
    ensures { result ≡ count_below 32 (λ k. eqb (get_or numbers.now k 0) x) }
{
    let mut count = 0u32;
    for number in numbers {
        count += (*number == x) as u32;
    }
    count
}

// Whether each of the first so many numbers stands once among all 32.
fn single(numbers: &[u32; 32], rows: usize) -> bool
    requires { rows ≤ 31 }
    ensures { result ≡ true → Distinct numbers.now rows }
{
    numbers[..rows]
        .iter()
        .all(|number| count_of(numbers, *number) == 1)
}

// The first row whose point stands in an earlier row, each point compared with all earlier ones.
fn first_repeated_by_pairs(points: &[u32; 32], rows: usize) -> Option<u32>
    requires { rows ≤ 31 }
    ensures { result ≡ first_below rows (λ r. any_below r (λ q. eqb (get_or points.now q 0) (get_or points.now r 0))) }
{
    (0..rows)
        .find(|r| stands_earlier(points, *r))
        .map(|later| later as u32)
}

// The first row whose point stands in an earlier row. That none does is seen more quickly where points rise; and where there are many, if the
// places behind the rows hold no point.
pub fn first_repeated(points: &[u32; 32], rows: usize) -> Option<u32>
    requires { rows ≤ 31 }
    ensures { result ≡ first_below rows (λ r. any_below r (λ q. eqb (get_or points.now q 0) (get_or points.now r 0))) }
{
    if rise(points, rows) {
        return None;
    }
    if 16 <= rows {
        if single(points, rows) {
            return None;
        }
    }
    first_repeated_by_pairs(points, rows)
}
