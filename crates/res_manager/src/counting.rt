//! The calls that say what all open files have together.

ghost use Rattle.std.specs.Prelude.{◌≡◌};
ghost use Rattle.res_update.specs.Counted.{counted, told_of_all};

use crate::tests::test_file;
use fork_disk::store::ForkStore;
use mac_base::error::OsErr;
use mac_base::{Outcome, Results};
use res_files::ResourceFiles;
use res_update::CountingCall;

/// Makes a call that says what all open files have together. resFNotFound where no file is open.
pub fn count<S: ForkStore>(files: &ResourceFiles<S>, call: CountingCall) -> Outcome
    ensures { result ≡ counted call files.now.files }
{
    test_file(files)?;
    told_of_all(files, call)
}

/// What open files say: resNotFound where there is no type with the index, and addResFailed where no id from 128 on is
/// left.
fn told_of_all<S: ForkStore>(files: &ResourceFiles<S>, call: CountingCall) -> Outcome
    ensures { result ≡ told_of_all call files.now.files }
{
    match call {
        CountingCall::CountTypes => Ok(Results::Number(files.count_types_in_all())),
        CountingCall::GetIndType(index) => files
            .type_of_ith_in_all(index)
            .map(Results::Kind)
            .ok_or(OsErr::ResNotFound),
        CountingCall::CountResources(kind) => Ok(Results::Number(files.count_in_all(kind))),
        CountingCall::UniqueId(kind) => {
            let id = files.free_id_in_all(kind).ok_or(OsErr::AddResFailed)?;
            Ok(Results::Number(u32::from(id)))
        }
    }
}
