// Lists of ids: which stand in them, and whether any stands twice.
ghost use Rattle.std.specs.Prelude.{◌≡◌};
ghost use Rattle.records.specs.Numbers.{among, each_once, all_zero};

// Whether the id is among these. All are looked at, so that several are at a time.
#[tactic(auto, using(crate::proofs::FoldLaws::fold_among))]
pub(crate) fn among(ids: &[u32], id: u32) -> bool
    ensures { result ≡ among id ids.now }
{
    ids.iter()
        .fold(false, |found, &other| found | (other == id))
}

// Whether these are all 0; also all looked at. Octets have one of their own: a bound that gives `|` and 0 for both says more than either line.
#[tactic(auto, using(crate::proofs::FoldLaws::fold_zero))]
pub(crate) fn are_zero(ids: &[u32]) -> bool
    ensures { result ≡ all_zero ids.now }
{
    ids.iter().fold(0, |used, &id| used | id) == 0
}

// How many flags ids share.
const FLAGS: usize = 256;

// Whether no id stands twice: a search over the pairs of ids, left at the first repeated one. An id is compared with those before it only if one of them has
// set its flag; equal ids have the same flag.
pub(crate) fn each_once(ids: &[u32]) -> bool
    ensures { result ≡ each_once ids.now }
{
    let mut set = [false; FLAGS];
    let mut once = true;
    'pairs: for (i, &id) in ids.iter().enumerate() {
        let flag = id as usize % FLAGS;
        if set[flag] {
            for &other in &ids[..i] {
                if other == id {
                    once = false;
                    break 'pairs;
                }
            }
        }
        set[flag] = true;
    }
    once
}
