// The choice of a few numbers with the greatest total.
ghost use Rattle.std.specs.Prelude.{◌≡◌, ◌≤◌};
ghost use Rattle.bounds.specs.Climbs.{Picked, GreatestLeft, ZeroPast};

// The place of the greatest number that is not chosen, if one of these is above 0. None past the
// rows is looked at.
fn greatest_left(numbers: &[u32; 32], chosen: &[bool; 32], rows: usize) -> Option<usize>
    requires few { rows ≤ 32 }
    requires past { ZeroPast rows numbers.now }
    ensures { GreatestLeft numbers.now chosen.now result }
{
    (0..rows)
        .filter(|&place| numbers[place] > 0 && !chosen[place])
        .max_by_key(|&place| numbers[place])
}

// At most `limit` of the numbers, none of them 0, with the greatest total that so few can have.
pub(crate) fn picks(numbers: &[u32; 32], rows: usize, limit: u32) -> [bool; 32]
    requires few { rows ≤ 32 }
    requires past { ZeroPast rows numbers.now }
    ensures { Picked numbers.now limit result }
{
    let mut chosen = [false; 32];
    for _round in 0..limit {
        let Some(place) = greatest_left(numbers, &chosen, rows) else {
            return chosen;
        };
        chosen[place] = true;
    }
    chosen
}
