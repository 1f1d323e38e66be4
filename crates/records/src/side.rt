// The records of one side.
ghost use Rattle.std.specs.Prelude.{◌≡◌, ◌==◌, true, [], length, drop, position, nat_le};
ghost use Rattle.records.specs.Limits.{records};
ghost use Rattle.records.specs.Records.{unused, view, pack, lookup, member, distinct, formed, is_blank, blank, sound_records, added, retired};
ghost use Rattle.records.specs.Steps.{used};

use crate::ids::each_once;
use crate::{Record, Records, State};
use codes::Code;

impl Record {
    pub const UNUSED: Record = Record {
        id: 0,
        code: Code::Local(0),
    };

    // 0 where a place that holds this is unused: a number and no bool, so that `are_unused` joins them without a test of each.
    fn used(&self) -> u32
        ensures { result ≡ used self.now }
    {
        match self.code {
            Code::Local(x) => self.id | x,
            Code::Global(_) => 1,
        }
    }
}

// Whether these places are unused. All are looked at, which takes less than to stop.
#[tactic(auto, using(crate::proofs::FoldLaws::fold_used))]
fn are_unused(places: &[Record]) -> bool
    ensures { result ≡ blank places.now }
{
    places.iter().fold(0, |used, place| used | place.used()) == 0
}

impl Records {
    pub fn fresh() -> Self
        ensures { result ≡ pack [] }
    {
        Records {
            count: 0,
            places: [Record::UNUSED; State::RECORDS],
        }
    }

    // The live records.
    pub fn as_slice(&self) -> &[Record]
        ensures { result.now ≡ view self.now }
    {
        if self.count < State::RECORDS {
            &self.places[..self.count]
        } else {
            &self.places
        }
    }

    pub fn len(&self) -> usize
        ensures { result ≡ length (view self.now) }
    {
        self.as_slice().len()
    }

    pub fn is_full(&self) -> bool
        ensures { result ≡ nat_le records (length (view self.now)) }
    {
        State::RECORDS <= self.len()
    }

    // The operation of the record with the id.
    pub fn find(&self, id: u32) -> Option<Code>
        ensures { result ≡ lookup id (view self.now) }
    {
        self.as_slice()
            .iter()
            .find(|record| record.id == id)
            .map(|record| record.code)
    }

    // Whether a record has the id. All are looked at, which takes less than to stop.
    #[tactic(auto, using(crate::proofs::FoldLaws::fold_member))]
    pub fn contains(&self, id: u32) -> bool
        ensures { result ≡ member id (view self.now) }
    {
        self.as_slice()
            .iter()
            .fold(false, |found, record| found | (record.id == id))
    }

    // Where the record with the id stands.
    pub fn place(&self, id: u32) -> Option<usize>
        ensures { result ≡ position (λ r. r.id == id) (view self.now) }
    {
        self.as_slice().iter().position(|record| record.id == id)
    }

    // A new record goes last; a full side stays as it is.
    pub fn add(&mut self, new: Record)
        ensures { self.new ≡ added self.old new }
    {
        if self.count < State::RECORDS {
            self.places[self.count] = new;
            self.count += 1;
        }
    }

    // The side anew, of the records that stay, so that every place behind them is unused.
    pub(crate) fn retire(&mut self, id: u32)
        ensures { self.new ≡ retired self.old id }
    {
        let mut stays = Records::fresh();
        for record in self.as_slice() {
            if record.id != id {
                stays.add(*record);
            }
        }
        *self = stays;
    }

    // The same of sound records, where those behind the one that leaves move up.
    pub fn take_out(&mut self, id: u32)
        ensures { sound_records self.old ≡ true → self.new ≡ retired self.old id }
    {
        if let Some(place) = self.place(id) {
            let live = self.len();
            self.places.copy_within(place + 1..live, place);
            self.places[live - 1] = Record::UNUSED;
            self.count = live - 1;
        }
    }

    // The places behind the live records.
    fn behind(&self) -> &[Record]
        ensures { result.now ≡ drop self.now.count self.now.places }
    {
        if self.count < State::RECORDS {
            &self.places[self.count..]
        } else {
            &[]
        }
    }

    // Whether no id stands twice. The ids stand in an array, since there is no heap.
    fn is_distinct(&self) -> bool
        ensures { result ≡ distinct (view self.now) }
    {
        let live = self.as_slice();
        let mut ids = [0; State::RECORDS];
        for (i, record) in live.iter().enumerate() {
            ids[i] = record.id;
        }
        each_once(&ids[..live.len()])
    }

    // Whether each code has its form.
    fn is_formed(&self) -> bool
        ensures { result ≡ formed (view self.now) }
    {
        self.as_slice().iter().all(|record| record.code.is_right())
    }

    // Where no record is live only that every place is unused is asked, and one record has no other with its id.
    pub fn is_sound(&self) -> bool
        ensures { result ≡ sound_records self.now }
    {
        if self.count == 0 {
            return are_unused(&self.places);
        }
        self.count <= State::RECORDS
            && (self.count == 1 || self.is_distinct())
            && self.is_formed()
            && are_unused(self.behind())
    }
}
