// State images, as a script gives them: the two sides, the ids that rest and the kept answers with their store.
use crate::call::Store;
use crate::kept::kept_image;
use crate::resting::resting_image;
use crate::side::{local_image, side_image};
use base::octets::between;
use records::State;

// The state of an image, and its store; another length leaves both as they were. What a shorter image lacks is as in the fresh state: with names for codes
// 1,348 octets have the sides, 1,606 the ids that rest, too, and 5,752 the kept answers.
pub(crate) fn imaged(image: &[u8], store: &mut Store, before: State) -> State {
    let n = image.len();
    let mut state = State::fresh();
    match n {
        516 => {
            state.own = local_image(between(image, 0, 258));
            state.peer = local_image(between(image, 258, n));
        }
        1348 | 1606 | 5752 => {
            state.own = side_image(between(image, 0, 674));
            state.peer = side_image(between(image, 674, 1348));
        }
        _ => return before,
    }
    state.resting = resting_image(between(image, 1348, n));
    state.kept = kept_image(between(image, 1606, n), store);
    state
}
