// Finding a record by its number, for machines and for batches alike.
ghost use Rattle.std.specs.Prelude.{◌≡◌, ℕ, ◌<◌, ◌≤◌, true, not, map, length, is_ok, IfOk, if◌then◌else◌, Some, None, MatchResult};
ghost use Rattle.books.specs.Numbers.{among, ascending, Found, Missing};
ghost use Rattle.books.specs.Refusals.{refusal_in};

use crate::refusal::Refusal;

// A record that is kept in ascending number.
pub(crate) trait Numbered {
    ghost key: { Self → ℕ };

    fn number(&self) -> u32
        ensures tells_the_key { result ≡ key self.now };
}

// The place of the record with the number, or else the place at which it would stand. The records have to be in
// ascending number; of others nothing is said. A binary search by hand: by the library's methods calls that look a number
// up take up to four times as long (docs/DESIGN-PASS.md).
pub(crate) fn find<R: Numbered>(records: &[R], number: u32) -> Result<usize, usize>
    ensures stays_within_the_records { MatchResult result (λ i. i < length records.now) (λ i. i ≤ length records.now) }
    ensures finds_the_place { ascending (map R.key records.now) ≡ true → MatchResult result (Found number (map R.key records.now)) (Missing number (map R.key records.now)) }
    ensures tells_whether_there_is_one { ascending (map R.key records.now) ≡ true → is_ok result ≡ among number (map R.key records.now) }
{
    let mut low = 0;
    let mut high = records.len();
    while low < high {
        let middle = low + (high - low) / 2;
        let here = records[middle].number();
        if here == number {
            return Ok(middle);
        }
        if here < number {
            low = middle + 1;
        } else {
            high = middle;
        }
    }
    Err(low)
}

// The place of the record with the number; where there is none, the refusal.
pub(crate) fn place_of<R: Numbered>(
    records: &[R],
    number: u32,
    unknown: Refusal,
) -> Result<usize, Refusal>
    ensures refuses_just_where_there_is_none { ascending (map R.key records.now) ≡ true → refusal_in result ≡ (if not (among number (map R.key records.now)) then Some unknown else None) }
    ensures finds_the_place { ascending (map R.key records.now) ≡ true → IfOk result (Found number (map R.key records.now)) }
{
    find(records, number).map_err(|_| unknown)
}
