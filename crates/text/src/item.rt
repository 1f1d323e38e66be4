// One of several names, which stand in a list with a bar between each and the next.
ghost use Rattle.text.specs.Text.{Said, item_of};

use crate::put;

// Item n of a list, counted from 0; nothing where there are not so many. One list and no slice of names: `item_of`, which callers are told, is of a list.
pub fn item(line: &mut [u8], at: usize, list: &[u8], n: usize) -> usize
    ensures { Said line.old at (item_of n list.now) line.new result }
{
    let mut k = at;
    let mut bars: usize = 0;
    for &c in list {
        if c == b'|' {
            bars += 1;
        } else if bars == n {
            k = put(line, k, c);
        }
    }
    k
}
