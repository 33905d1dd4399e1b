// Where a record stands in the bytes that C lends.
ghost use Rattle.std.specs.Prelude.{◌≤◌, ◌≡◌, length};
ghost use Rattle.records.specs.Records.{record_bytes};
ghost use Rattle.capi.specs.Places.{has_record_places};
ghost use Rattle.capi.specs.Crossing.{record_put, record_status};

use crate::places::has_answer;
use records::RECORD_BYTES;
use status::Status;

pub fn has_record_places(place: &[u8], answer: &[u64]) -> bool
    ensures { result ≡ has_record_places place.now answer.now }
{
    place.len() >= RECORD_BYTES && has_answer(answer)
}

// The record to its place, or the refusal, which touches none of it.
pub fn put_record(place: &mut [u8], made: Result<[u8; RECORD_BYTES], Status>) -> Status
    requires { record_bytes ≤ length place.old }
    ensures put { place.new ≡ record_put place.old made }
    ensures status { result ≡ record_status made }
{
    match made {
        Ok(record) => {
            place[..RECORD_BYTES].copy_from_slice(&record);
            Status::Ok
        }
        Err(status) => status,
    }
}
