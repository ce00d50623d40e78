//! What is salvaged of a file: of its resource fork what can be read, and of its data fork the bytes that are there. A
//! fault of the container is named, and is no hindrance.

ghost use Rattle.std.specs.Prelude.{◌≡◌, ◌≢◌, [], IfErr, IfOk, IsTrue, None, Some, false};
ghost use Rattle.mac_salvage.specs.InSpite.{fault_by, forks_by, forks_in_spite, kind_by, left_by};
ghost use Rattle.fork_report.specs.Damage.{IsDamaged, is_readable, tally_of};
ghost use Rattle.fork_report.specs.Salvaged.{CanBeSalvaged, CantBeSalvaged, HasLeft, IsDataNotSalvaged, IsNotKept, IsNotLeft, IsNotListed, IsNotSalvaged, Lists, Salvages, SalvagesData, TellsLeft, damage_by, data_by, is_host_full, lack_by, nothing_left};

use crate::damage::{MOST_FOUND, Tally, tally_of};
use crate::refusal::{Refusal, other_than_fork};
use fork_answer::{Failure, NoFork, mended_fork, salvage_listing};
use fork_bytes::fault::WriteFault;
use fork_list::letters::Letters;
use fork_salvage::first_fault;
use mac_files::fault::Fork;
use mac_files::kind::FileKind;
use mac_files::old_file::FileFault;
use mac_salvage::{FileLeft, ForkLeft, open_in_spite};
use std::alloc::{AllocError, Global};
use std::fmt;

/// The first fault of a file's container, in spite of which a fork is read, as far as its bytes are there.
#[derive(Clone, Copy, Debug)]
pub struct ContainerDamage {
    /// What the file is known as.
    pub kind: FileKind,
    pub fault: FileFault,
    /// The fork that is read.
    pub fork: Fork,
    /// How many bytes it has as the container says.
    pub said: usize,
    /// How many of them are there.
    pub there: usize,
}

impl fmt::Display for ContainerDamage {
    fn fmt<W: fmt::Write>(&self, f: &mut fmt::Formatter<W>) -> fmt::Result {
        let ContainerDamage {
            kind,
            fault,
            fork,
            said,
            there,
        } = *self;
        let name = kind.name();
        write!(
            f,
            "{name}: {fault}\n  {there} of the {said} bytes of its {fork} are read"
        )
    }
}

/// What can be read of a file's resource fork, as a list.
#[derive(Drop)]
pub struct SalvageList {
    /// A line for each resource that can be read, and for each that can't.
    pub text: String,
    pub damage: Option<ContainerDamage>,
}

/// A fork of what can be read of a file's resource fork.
#[derive(Drop)]
pub struct ForkSalvaged {
    pub bytes: Vec<u8>,
    /// How many resources they are of how many, unless that is all.
    pub tally: Option<Tally>,
    pub damage: Option<ContainerDamage>,
}

/// A file of whose data fork some bytes are there.
#[derive(Drop)]
pub struct DataSalvaged<'a> {
    file: FileLeft<'a>,
    pub damage: Option<ContainerDamage>,
}

impl DataSalvaged<'_> {
    /// The bytes of its data fork that are there.
    pub fn bytes(&self) -> &[u8]
        ensures { result.now ≡ data_by self.now }
    {
        match self.file.data_fork() {
            Some(fork) => fork.bytes,
            None => &[],
        }
    }
}

/// What is said of a fault of a file's container, where this is read of a fork.
fn damage_by(file: &FileLeft, fork: Fork, left: &ForkLeft) -> Option<ContainerDamage>
    ensures { result ≡ damage_by (kind_by file.now) fork (fault_by file.now) (left_by left.now) }
{
    Some(ContainerDamage {
        kind: file.kind(),
        fault: file.fault()?,
        fork,
        said: left.said,
        there: left.bytes.len(),
    })
}

/// The file that bytes hold, in spite of a fault of its container, if they look like a file with a fork in it.
#[tactic(auto, using(crate::proofs::Salvaging::told_shut, crate::proofs::Salvaging::other_where))]
fn file_left<'a>(alloc: Global, bytes: &'a [u8]) -> Result<FileLeft<'a>, Refusal>
    ensures file { IfOk result (HasLeft bytes.now) }
    ensures refused { IfErr result (IsNotKept bytes.now) }
{
    let file = match open_in_spite(alloc, bytes) {
        Ok(file) => file,
        Err(fault) => {
            return Err(Refusal::of_failure(alloc, Failure::NoFork(NoFork::File(fault)), bytes));
        }
    };
    match other_than_fork(alloc, file.kind(), bytes) {
        Some(refusal) => Err(refusal),
        None => Ok(file),
    }
}

/// Why a file that is kept has no such fork.
fn lack_of(file: &FileLeft) -> NoFork
    ensures { result ≡ lack_by (fault_by file.now) }
{
    match file.fault() {
        Some(fault) => NoFork::File(fault),
        None => NoFork::Absent,
    }
}

/// The resource fork of a file that holds these bytes.
fn fork_of<'a>(alloc: Global, file: &'a FileLeft<'_>, bytes: &[u8]) -> Result<ForkLeft<'a>, Refusal>
    requires { HasLeft bytes.now file.now }
    ensures fork { IfOk result (λ fork. (forks_in_spite bytes.now).resource_fork ≡ Some (left_by fork)) }
    ensures refused { IfErr result (IsNotLeft bytes.now) }
{
    match file.resource_fork() {
        Some(fork) => Ok(fork),
        None => Err(Refusal::of_failure(alloc, Failure::NoFork(lack_of(file)), bytes)),
    }
}

/// Whether a fork has a fault. One without bytes has none.
fn is_damaged(alloc: Global, fork: &[u8]) -> bool
    ensures damaged { IsTrue result → IsDamaged fork.now }
    ensures whole { result ≡ false → ¬ IsDamaged fork.now }
{
    if fork.is_empty() {
        return false;
    }
    first_fault(alloc, fork).is_some()
}

/// Whether this text of what can be read of a fork shows nothing, and the fork has a fault.
fn shows_nothing(alloc: Global, text: &str, fork: &[u8]) -> bool
    ensures nothing { IsTrue result → (text.now ≡ []) × IsDamaged fork.now }
    ensures some { result ≡ false → IsDamaged fork.now → text.now ≢ [] }
{
    if !text.is_empty() {
        return false;
    }
    is_damaged(alloc, fork)
}

/// That nothing can be read of a fork, with what is said of a fault of the container.
fn nothing_left(damage: Option<ContainerDamage>) -> Refusal
    ensures { result ≡ nothing_left damage }
{
    match damage {
        Some(damage) => Refusal::NothingLeft(damage),
        None => Refusal::Nothing,
    }
}

/// A line for each resource that can be read of a file's fork, and for each that can't. It is refused where there is
/// none, unless the fork has no fault.
#[tactic(auto, using(crate::proofs::Salvaging::kept_not_listed, crate::proofs::Salvaging::not_listed))]
pub fn salvage_list(alloc: Global, letters: Letters, bytes: &[u8]) -> Result<SalvageList, Refusal>
    ensures list { IfOk result (Lists letters bytes.now) }
    ensures refused { IfErr result (IsNotListed letters bytes.now) }
{
    let file = file_left(alloc, bytes)?;
    let fork = fork_of(alloc, &file, bytes)?;
    let Ok(text) = salvage_listing(alloc, letters, fork.bytes, MOST_FOUND) else {
        return Err(Refusal::Show(Failure::HostFull));
    };
    let damage = damage_by(&file, Fork::Resource, &fork);
    if shows_nothing(alloc, text.as_str(), fork.bytes) {
        return Err(nothing_left(damage));
    }
    Ok(SalvageList { text, damage })
}

/// How much can be read of a fork that is damaged; None of one that isn't. It is refused where no resource can be read.
fn left_of(
    alloc: Global,
    fork: &[u8],
    damage: Option<ContainerDamage>,
) -> Result<Option<Tally>, Refusal>
    ensures told { IfOk result (TellsLeft fork.now) }
    ensures nothing { IfErr result (λ refusal. (refusal ≡ nothing_left damage) × IsDamaged fork.now × (is_readable (tally_of fork.now) ≡ false)) }
{
    if fork.is_empty() || first_fault(alloc, fork).is_none() {
        return Ok(None);
    }
    let tally = tally_of(fork);
    if !tally.is_some_and(Tally::is_readable) {
        return Err(nothing_left(damage));
    }
    Ok(tally)
}

/// A fork of all resources that can be read of a file's fork.
#[tactic(auto, using(crate::proofs::Salvaging::kept_not_salvaged, crate::proofs::Salvaging::not_salvaged))]
pub fn salvage(alloc: Global, bytes: &[u8]) -> Result<ForkSalvaged, Refusal>
    ensures salvaged { IfOk result (Salvages bytes.now) }
    ensures refused { IfErr result (IsNotSalvaged bytes.now) }
{
    let file = file_left(alloc, bytes)?;
    let fork = fork_of(alloc, &file, bytes)?;
    let damage = damage_by(&file, Fork::Resource, &fork);
    let tally = left_of(alloc, fork.bytes, damage)?;
    match mended_fork(alloc, fork.bytes) {
        Ok(bytes) => Ok(ForkSalvaged {
            bytes,
            tally,
            damage,
        }),
        Err(WriteFault::HostFull) => Err(Refusal::Show(Failure::HostFull)),
        Err(WriteFault::TooBig) => Err(Refusal::TooMuch),
    }
}

/// How much can be read of a file's resource fork, which is there in spite of a fault of its container; None where it has
/// no fault itself.
#[tactic(auto, using(crate::proofs::Salvaging::kept_not_salvaged, crate::proofs::Salvaging::not_salvaged))]
fn left_in(alloc: Global, bytes: &[u8]) -> Result<Option<Tally>, Refusal>
    ensures left { IfOk result (λ tally. CanBeSalvaged bytes.now) }
    ensures refused { IfErr result (IsNotSalvaged bytes.now) }
{
    let file = file_left(alloc, bytes)?;
    let fork = fork_of(alloc, &file, bytes)?;
    let damage = damage_by(&file, Fork::Resource, &fork);
    left_of(alloc, fork.bytes, damage)
}

/// Whether the host has no memory to say why a file is refused.
fn is_host_full(refusal: &Refusal) -> bool
    ensures { result ≡ is_host_full refusal.now }
{
    matches!(refusal, Refusal::Show(Failure::HostFull))
}

/// Whether a file's resource fork is there in spite of a fault of its container, and some resource of it can be read, or
/// it has no fault itself. The only error is that the host has no memory.
pub fn can_be_salvaged(alloc: Global, bytes: &[u8]) -> Result<bool, AllocError>
    ensures yes { IfOk result (λ can. IsTrue can → CanBeSalvaged bytes.now) }
    ensures no { IfOk result (λ can. can ≡ false → CantBeSalvaged bytes.now) }
{
    match left_in(alloc, bytes) {
        Ok(_tally) => Ok(true),
        Err(refusal) => {
            if is_host_full(&refusal) {
                Err(AllocError)
            } else {
                Ok(false)
            }
        }
    }
}

/// The data fork of a file that holds these bytes.
fn data_of<'a>(alloc: Global, file: &'a FileLeft<'_>, bytes: &[u8]) -> Result<ForkLeft<'a>, Refusal>
    requires { HasLeft bytes.now file.now }
    ensures fork { IfOk result (λ fork. (forks_in_spite bytes.now).data_fork ≡ Some (left_by fork)) }
    ensures refused { IfErr result (IsDataNotSalvaged bytes.now) }
{
    match file.data_fork() {
        Some(fork) => Ok(fork),
        None => Err(no_data(alloc, file, bytes)),
    }
}

/// Why a file without a data fork has none.
fn no_data(alloc: Global, file: &FileLeft, bytes: &[u8]) -> Refusal
    requires left { HasLeft bytes.now file.now }
    requires none { (forks_by file.now).data_fork ≡ None }
    ensures { IsDataNotSalvaged bytes.now result }
{
    match file.fault() {
        Some(fault) => Refusal::of_failure(alloc, Failure::NoFork(NoFork::File(fault)), bytes),
        None => Refusal::NoData(file.kind().name()),
    }
}

/// The data fork of a file, as far as its bytes are there. It is refused where there are none.
#[tactic(auto, using(crate::proofs::Salvaging::kept_no_data))]
pub fn salvage_data<'a>(alloc: Global, bytes: &'a [u8]) -> Result<DataSalvaged<'a>, Refusal>
    ensures salvaged { IfOk result (SalvagesData bytes.now) }
    ensures refused { IfErr result (IsDataNotSalvaged bytes.now) }
{
    let file = file_left(alloc, bytes)?;
    let fork = data_of(alloc, &file, bytes)?;
    let damage = damage_by(&file, Fork::Data, &fork);
    Ok(DataSalvaged { file, damage })
}
