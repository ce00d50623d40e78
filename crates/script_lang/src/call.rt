//! The calls that lines make.

ghost use Rattle.std.specs.Prelude.{◌≡◌};
ghost use Rattle.mac_base.specs.declared.call.Call.TheVariants.{Memory, Resource};
ghost use Rattle.mac_base.specs.declared.memory_call.MemoryCall.TheVariants.{Requesting, Filling, OnBlock, OnZone, Showing};
ghost use Rattle.mac_base.specs.declared.resource_call.ResourceCall.TheVariants.{Getting, Looking, Changing, Writing};
ghost use Rattle.script_lang.specs.declared.line.NamedCall.TheVariants.{BlockMove, AddResource};
ghost use Rattle.script_lang.specs.Resolving as calls;

use crate::line::{CallLine, IdOperand, NamedCall, NumberOperand};
use crate::table::{
    BytesName, FileName, HandleName, KindName, NumberName, PlainName, ResourceHandleName,
    ResourceName, ThreeNumbersName, TwoNumbersName,
};
use crate::vars::Vars;
use mac_base::handle::{Handle, Ptr};
use mac_base::resource::ResType;
use mac_base::{
    BlockCall, Call, ChangingCall, FillingCall, GettingCall, LoanCall, LookingCall, MemoryCall,
    RequestingCall, ResourceCall, ShowingCall, Span, WritingCall, ZoneCall,
};

/// The number that is written, or the value of the variable.
pub(crate) fn number_of(operand: NumberOperand, vars: &Vars) -> u32
    ensures { result ≡ calls.number_of vars.now operand }
{
    match operand {
        NumberOperand::Number(number) => number,
        NumberOperand::Variable(name) => vars.value(name),
    }
}

/// The id that is written, or the value of the variable, which may be out of the range of ids.
fn id_of(operand: IdOperand, vars: &Vars) -> i64
    ensures { result ≡ calls.id_of vars.now operand }
{
    match operand {
        IdOperand::Id(id) => i64::from(id),
        IdOperand::Variable(name) => i64::from(vars.value(name)),
    }
}

/// A call that requests a block, or another size or place for one.
fn requesting(call: RequestingCall) -> Call<'static>
    ensures { result ≡ Memory (Requesting call) }
{
    Call::Memory(MemoryCall::Requesting(call))
}

/// A call that requests a block for bytes, or another size for one, and fills it with them.
fn filling(call: FillingCall<'_>) -> Call<'_>
    ensures { result ≡ Memory (Filling call.entry) }
{
    Call::Memory(MemoryCall::Filling(call))
}

/// A call on a block that requests none.
fn on_block(call: BlockCall<'_>) -> Call<'_>
    ensures { result ≡ Memory (OnBlock call.entry) }
{
    Call::Memory(MemoryCall::OnBlock(call))
}

/// A call on the zone as a whole.
fn on_zone(call: ZoneCall) -> Call<'static>
    ensures { result ≡ Memory (OnZone call) }
{
    Call::Memory(MemoryCall::OnZone(call))
}

/// A call that gives a copy of what the zone has.
fn showing(call: ShowingCall) -> Call<'static>
    ensures { result ≡ Memory (Showing call) }
{
    Call::Memory(MemoryCall::Showing(call))
}

/// A call that gets or loads a resource.
fn getting(call: GettingCall) -> Call<'static>
    ensures { result ≡ Resource (Getting call) }
{
    Call::Resource(ResourceCall::Getting(call))
}

/// A call that returns what the open files say.
fn looking(call: LookingCall) -> Call<'static>
    ensures { result ≡ Resource (Looking call) }
{
    Call::Resource(ResourceCall::Looking(call))
}

/// A call that changes what the open files say, or how later calls go.
fn changing(call: ChangingCall) -> Call<'static>
    ensures { result ≡ Resource (Changing call) }
{
    Call::Resource(ResourceCall::Changing(call))
}

/// A call that writes a file, or a row of one.
fn writing(call: WritingCall) -> Call<'static>
    ensures { result ≡ Resource (Writing call) }
{
    Call::Resource(ResourceCall::Writing(call))
}

/// The call of this name on a handle.
fn handle_call(call: HandleName, handle: Handle) -> Call<'static>
    ensures { result ≡ calls.handle_call call handle }
{
    match call {
        HandleName::DisposeHandle => on_block(BlockCall::DisposeHandle(handle)),
        HandleName::EmptyHandle => on_block(BlockCall::EmptyHandle(handle)),
        HandleName::GetHandleSize => on_block(BlockCall::GetHandleSize(handle)),
        HandleName::HLock => on_block(BlockCall::HLock(handle)),
        HandleName::HUnlock => on_block(BlockCall::HUnlock(handle)),
        HandleName::HPurge => on_block(BlockCall::HPurge(handle)),
        HandleName::HNoPurge => on_block(BlockCall::HNoPurge(handle)),
        HandleName::HSetRBit => on_block(BlockCall::HSetRBit(handle)),
        HandleName::HClrRBit => on_block(BlockCall::HClrRBit(handle)),
        HandleName::HGetState => on_block(BlockCall::HGetState(handle)),
        HandleName::Deref => on_block(BlockCall::Deref(handle)),
        HandleName::MoveHHi => on_block(BlockCall::MoveHHi(handle)),
        HandleName::HLockHi => on_block(BlockCall::HLockHi(handle)),
        HandleName::HandToHand => filling(FillingCall::HandToHand(handle)),
    }
}

/// The call of this name on the handle of a resource.
fn resource_handle_call(call: ResourceHandleName, handle: Handle) -> Call<'static>
    ensures { result ≡ calls.resource_handle_call call handle }
{
    match call {
        ResourceHandleName::LoadResource => getting(GettingCall::LoadResource(handle)),
        ResourceHandleName::ReleaseResource => changing(ChangingCall::ReleaseResource(handle)),
        ResourceHandleName::DetachResource => changing(ChangingCall::DetachResource(handle)),
        ResourceHandleName::ChangedResource => changing(ChangingCall::ChangedResource(handle)),
        ResourceHandleName::RemoveResource => changing(ChangingCall::RemoveResource(handle)),
        ResourceHandleName::WriteResource => writing(WritingCall::WriteResource(handle)),
        ResourceHandleName::GetResAttrs => looking(LookingCall::GetResAttrs(handle)),
        ResourceHandleName::GetResInfo => Call::Resource(ResourceCall::GetResInfo(handle)),
        ResourceHandleName::SizeResource => looking(LookingCall::SizeResource(handle)),
        ResourceHandleName::HomeResFile => looking(LookingCall::HomeResFile(handle)),
    }
}

/// The call of this name on a number.
fn number_call(call: NumberName, number: u32) -> Call<'static>
    ensures { result ≡ calls.number_call call number }
{
    match call {
        NumberName::Handle(call) => handle_call(call, Handle::new(number)),
        NumberName::ResourceHandle(call) => resource_handle_call(call, Handle::new(number)),
        NumberName::NewHandle => requesting(RequestingCall::NewHandle(number)),
        NumberName::NewPtr => requesting(RequestingCall::NewPtr(number)),
        NumberName::DisposePtr => on_block(BlockCall::DisposePtr(Ptr::new(number))),
        NumberName::GetPtrSize => on_block(BlockCall::GetPtrSize(Ptr::new(number))),
        NumberName::RecoverHandle => on_block(BlockCall::RecoverHandle(number)),
        NumberName::CompactMem => on_zone(ZoneCall::CompactMem(number)),
        NumberName::PurgeMem => on_zone(ZoneCall::PurgeMem(number)),
        NumberName::ReserveMem => requesting(RequestingCall::ReserveMem(number)),
        NumberName::Lend => Call::Loan(LoanCall::Lend(number)),
        NumberName::Return => Call::Loan(LoanCall::Return(number)),
        NumberName::GetIndType => looking(LookingCall::GetIndType(number)),
        NumberName::SetResLoad => changing(ChangingCall::SetResLoad(number)),
        NumberName::OpenResFile => Call::Resource(ResourceCall::OpenResFile(number)),
        NumberName::UseResFile => changing(ChangingCall::UseResFile(number)),
    }
}

/// The call of this name without operands.
fn plain_call(call: PlainName) -> Call<'static>
    ensures { result ≡ calls.plain_call call }
{
    match call {
        PlainName::NewEmptyHandle => requesting(RequestingCall::NewEmptyHandle),
        PlainName::MaxMem => on_zone(ZoneCall::MaxMem),
        PlainName::PurgeSpace => on_zone(ZoneCall::PurgeSpace),
        PlainName::MaxBlock => on_zone(ZoneCall::MaxBlock),
        PlainName::FreeMem => on_zone(ZoneCall::FreeMem),
        PlainName::MoreMasters => requesting(RequestingCall::MoreMasters),
        PlainName::MaxApplZone => on_zone(ZoneCall::MaxApplZone),
        PlainName::ZoneMap => showing(ShowingCall::ZoneMap),
        PlainName::MemError => Call::MemError,
        PlainName::CountTypes => looking(LookingCall::CountTypes),
        PlainName::CurResFile => looking(LookingCall::CurResFile),
        PlainName::ResError => Call::ResError,
    }
}

/// The call of this name on two numbers.
fn two_numbers_call(call: TwoNumbersName, first: u32, second: u32) -> Call<'static>
    ensures { result ≡ calls.two_numbers_call call first second }
{
    match call {
        TwoNumbersName::SetHandleSize => requesting(RequestingCall::SetHandleSize(
            Handle::new(first),
            second,
        )),
        TwoNumbersName::SetPtrSize => requesting(RequestingCall::SetPtrSize(
            Ptr::new(first),
            second,
        )),
        TwoNumbersName::HSetState => on_block(BlockCall::HSetState(Handle::new(first), second)),
        TwoNumbersName::ReallocateHandle => requesting(RequestingCall::ReallocateHandle(
            Handle::new(first),
            second,
        )),
        TwoNumbersName::PtrToHand => filling(FillingCall::PtrToHand(Ptr::new(first), second)),
        TwoNumbersName::HandAndHand => filling(FillingCall::HandAndHand(
            Handle::new(first),
            Handle::new(second),
        )),
        TwoNumbersName::SetResAttrs => changing(ChangingCall::SetResAttrs {
            handle: Handle::new(first),
            attributes: second,
        }),
    }
}

/// The call of this name on three numbers.
fn three_numbers_call(call: ThreeNumbersName, first: u32, second: u32, third: u32) -> Call<'static>
    ensures { result ≡ calls.three_numbers_call call first second third }
{
    match call {
        ThreeNumbersName::PtrToXHand => filling(FillingCall::PtrToXHand(
            Ptr::new(first),
            Handle::new(second),
            third,
        )),
        ThreeNumbersName::PtrAndHand => filling(FillingCall::PtrAndHand(
            Ptr::new(first),
            Handle::new(second),
            third,
        )),
        ThreeNumbersName::Peek => showing(ShowingCall::Peek {
            block: first,
            offset: second,
            count: third,
        }),
        ThreeNumbersName::LentPeek => Call::Loan(LoanCall::LentPeek {
            block: first,
            offset: second,
            count: third,
        }),
    }
}

/// The call of this name that puts these bytes into a block, from an offset on.
fn bytes_call<'a>(call: BytesName, block: u32, offset: u32, bytes: Span<'a>) -> Call<'a>
    ensures { result ≡ calls.bytes_call call block offset bytes.entry }
{
    match call {
        BytesName::Poke => on_block(BlockCall::Poke {
            block,
            offset,
            bytes,
        }),
        BytesName::LentPoke => Call::Loan(LoanCall::LentPoke {
            block,
            offset,
            bytes,
        }),
    }
}

/// The call of this name on a type and an id.
fn resource_call(call: ResourceName, kind: ResType, id: i64) -> Call<'static>
    ensures { result ≡ calls.resource_call call kind id }
{
    match call {
        ResourceName::GetResource => getting(GettingCall::GetResource { kind, id }),
        ResourceName::Get1Resource => getting(GettingCall::Get1Resource { kind, id }),
    }
}

/// The call of this name on a file, which may be left out.
fn file_call(call: FileName, file: Option<u32>) -> Call<'static>
    ensures { result ≡ calls.file_call call file }
{
    match call {
        FileName::UpdateResFile => writing(WritingCall::UpdateResFile(file)),
        FileName::CloseResFile => writing(WritingCall::CloseResFile(file)),
    }
}

/// The call of this name on a type.
fn kind_call(call: KindName, kind: ResType) -> Call<'static>
    ensures { result ≡ calls.kind_call call kind }
{
    match call {
        KindName::UniqueID => looking(LookingCall::UniqueID(kind)),
        KindName::CountResources => looking(LookingCall::CountResources(kind)),
    }
}

/// BlockMove, with the values that its operands have now.
fn block_move_call(
    from: NumberOperand,
    start: NumberOperand,
    to: NumberOperand,
    offset: NumberOperand,
    count: NumberOperand,
    vars: &Vars,
) -> Call<'static>
    ensures { result ≡ calls.resolved vars.now (BlockMove from start to offset count) }
{
    on_block(BlockCall::BlockMove {
        from: number_of(from, vars),
        start: number_of(start, vars),
        to: number_of(to, vars),
        offset: number_of(offset, vars),
        count: number_of(count, vars),
    })
}

/// AddResource, with the values that its operands have now.
fn add_resource_call<'a>(
    handle: NumberOperand,
    kind: ResType,
    id: IdOperand,
    name: &Option<Span<'a>>,
    vars: &Vars,
) -> Call<'a>
    ensures { result ≡ calls.resolved vars.now (AddResource handle kind id name.now) }
{
    Call::Resource(ResourceCall::AddResource {
        handle: Handle::new(number_of(handle, vars)),
        kind,
        id: id_of(id, vars),
        name: name.as_ref().map(|name| Span::new(name.as_slice())),
    })
}

/// The call that a line makes, with the values that its operands have now.
pub fn resolve<'a>(line: &CallLine<'a>, vars: &Vars) -> Call<'a>
    ensures { result ≡ calls.call_of vars.now line.now }
{
    match &line.call {
        NamedCall::Plain(call) => plain_call(*call),
        NamedCall::Number(call, one) => number_call(*call, number_of(*one, vars)),
        NamedCall::TwoNumbers(call, first, second) => {
            two_numbers_call(*call, number_of(*first, vars), number_of(*second, vars))
        }
        NamedCall::ThreeNumbers(call, first, second, third) => three_numbers_call(
            *call,
            number_of(*first, vars),
            number_of(*second, vars),
            number_of(*third, vars),
        ),
        NamedCall::BlockMove(from, start, to, offset, count) => {
            block_move_call(*from, *start, *to, *offset, *count, vars)
        }
        NamedCall::Bytes(call, block, offset, bytes) => bytes_call(
            *call,
            number_of(*block, vars),
            number_of(*offset, vars),
            Span::new(bytes.as_slice()),
        ),
        NamedCall::Resource(call, kind, id) => resource_call(*call, *kind, id_of(*id, vars)),
        NamedCall::GetIndResource(kind, index) => getting(GettingCall::GetIndResource {
            kind: *kind,
            index: number_of(*index, vars),
        }),
        NamedCall::Kind(call, kind) => kind_call(*call, *kind),
        NamedCall::AddResource(handle, kind, id, name) => {
            add_resource_call(*handle, *kind, *id, name, vars)
        }
        NamedCall::File(call, file) => file_call(*call, file.map(|file| number_of(file, vars))),
    }
}
