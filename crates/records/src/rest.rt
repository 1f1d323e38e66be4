// The ids that rest: docs/RULES.md, 'Ids that rest'.
ghost use Rattle.std.specs.Prelude.{◌≡◌, [], drop};
ghost use Rattle.records.specs.Numbers.{among, none_among};
ghost use Rattle.records.specs.Records.{view, ids_of};
ghost use Rattle.records.specs.Resting.{view_ids, pack_ids, sound_resting, rested};

use crate::ids::{among, are_zero, each_once};
use crate::{Record, Records, Resting, State};

impl Resting {
    pub fn fresh() -> Self
        ensures { result ≡ pack_ids [] }
    {
        Resting {
            count: 0,
            ids: [0; State::RESTING],
        }
    }

    // The ids that rest.
    pub fn as_slice(&self) -> &[u32]
        ensures { result.now ≡ view_ids self.now }
    {
        if self.count < State::RESTING {
            &self.ids[..self.count]
        } else {
            &self.ids
        }
    }

    pub fn contains(&self, id: u32) -> bool
        ensures { result ≡ among id (view_ids self.now) }
    {
        among(self.as_slice(), id)
    }

    // The id goes last; where 64 rest the oldest leaves. Ids are put down anew, so that every place behind them is 0.
    pub fn rest(&mut self, id: u32)
        ensures { self.new ≡ rested self.old id }
    {
        let old = self.as_slice();
        let staying = if old.len() < State::RESTING {
            old
        } else {
            &old[1..]
        };
        let n = staying.len();
        let mut ids = [0; State::RESTING];
        ids[..n].copy_from_slice(staying);
        ids[n] = id;
        self.ids = ids;
        self.count = n + 1;
    }

    // The places behind the ids that rest.
    fn behind(&self) -> &[u32]
        ensures { result.now ≡ drop self.now.count self.now.ids }
    {
        if self.count < State::RESTING {
            &self.ids[self.count..]
        } else {
            &[]
        }
    }

    // Whether none of these is the id of a record. There are fewer records, so that each of them is looked for.
    fn is_apart_from(&self, records: &[Record]) -> bool
        ensures { result ≡ none_among (view_ids self.now) (ids_of records.now) }
    {
        records.iter().all(|record| !self.contains(record.id))
    }

    // Whether these are sound beside the own records; where none rests only that every place is 0 is asked.
    pub fn is_sound(&self, own: &Records) -> bool
        ensures { result ≡ sound_resting (view own.now) self.now }
    {
        if self.count == 0 {
            return are_zero(&self.ids);
        }
        self.count <= State::RESTING
            && each_once(self.as_slice())
            && self.is_apart_from(own.as_slice())
            && are_zero(self.behind())
    }
}
