//! The calls that a line may make, by their names and by the operands that they take.

ghost use Rattle.std.specs.Prelude.{◌≡◌, ◌≢◌, map, IfSome, IfNone};
ghost use Rattle.script_lang.specs.declared.table.CallName.{CallName};
ghost use Rattle.script_lang.specs.declared.table.Row.{Row};
ghost use Rattle.script_lang.specs.Table as table;

/// The calls on a handle.
#[derive(Clone, Copy)]
pub enum HandleName {
    DisposeHandle,
    EmptyHandle,
    GetHandleSize,
    HLock,
    HUnlock,
    HPurge,
    HNoPurge,
    HSetRBit,
    HClrRBit,
    HGetState,
    Deref,
    MoveHHi,
    HLockHi,
    HandToHand,
}

/// The calls on the handle of a resource.
#[derive(Clone, Copy)]
pub enum ResourceHandleName {
    LoadResource,
    ReleaseResource,
    DetachResource,
    ChangedResource,
    RemoveResource,
    WriteResource,
    GetResAttrs,
    GetResInfo,
    SizeResource,
    HomeResFile,
}

/// The calls on a number: a handle, a size, a pointer, a file or an index.
#[derive(Clone, Copy)]
pub enum NumberName {
    Handle(HandleName),
    ResourceHandle(ResourceHandleName),
    NewHandle,
    NewPtr,
    DisposePtr,
    GetPtrSize,
    RecoverHandle,
    CompactMem,
    PurgeMem,
    ReserveMem,
    Lend,
    Return,
    GetIndType,
    SetResLoad,
    OpenResFile,
    UseResFile,
}

/// The calls without operands.
#[derive(Clone, Copy)]
pub enum PlainName {
    NewEmptyHandle,
    MaxMem,
    PurgeSpace,
    MaxBlock,
    FreeMem,
    MoreMasters,
    MaxApplZone,
    ZoneMap,
    MemError,
    CountTypes,
    CurResFile,
    ResError,
}

/// The calls on two numbers.
#[derive(Clone, Copy)]
pub enum TwoNumbersName {
    SetHandleSize,
    SetPtrSize,
    HSetState,
    ReallocateHandle,
    PtrToHand,
    HandAndHand,
    SetResAttrs,
}

/// The calls on three numbers.
#[derive(Clone, Copy)]
pub enum ThreeNumbersName {
    PtrToXHand,
    PtrAndHand,
    Peek,
    LentPeek,
}

/// The calls that put bytes into a block, from an offset on.
#[derive(Clone, Copy)]
pub enum BytesName {
    Poke,
    LentPoke,
}

/// The calls on a type and an id.
#[derive(Clone, Copy)]
pub enum ResourceName {
    GetResource,
    Get1Resource,
}

/// The calls on a file, which may be left out.
#[derive(Clone, Copy)]
pub enum FileName {
    UpdateResFile,
    CloseResFile,
}

/// The calls on a type.
#[derive(Clone, Copy)]
pub enum KindName {
    UniqueID,
    CountResources,
}

/// The calls that can be made, by the operands that they take.
#[derive(Clone, Copy)]
pub enum CallName {
    /// No operands.
    Plain(PlainName),
    /// A number.
    Number(NumberName),
    TwoNumbers(TwoNumbersName),
    ThreeNumbers(ThreeNumbersName),
    /// Five numbers.
    BlockMove,
    /// Two numbers, and bytes.
    Bytes(BytesName),
    /// A type and an id.
    Resource(ResourceName),
    /// A type and a number.
    GetIndResource,
    /// A type.
    Kind(KindName),
    /// A number, a type, an id, and bytes that may be left out.
    AddResource,
    /// A number that may be left out.
    File(FileName),
}

/// How a call is written, and whether a line may assign its first result, which is a number, a handle or an address
/// then.
#[derive(Clone, Copy)]
pub struct Signature {
    /// The call's name, in ASCII.
    pub name: &'static [u8],
    pub is_assignable: bool,
}

/// The table of calls: how each is written, and whether it gives a first result that a line may assign, or does
/// without. A search goes from the top, so those that scripts make most come first.
macro_rules! table_of_calls {
    ($make:ident $($given:tt)*) => {
        $make! {
            $($given)*
            Number(NumberName::NewHandle) gives b"NewHandle",
            Number(NumberName::Handle(HandleName::DisposeHandle)) does b"DisposeHandle",
            Bytes(BytesName::Poke) does b"Poke",
            ThreeNumbers(ThreeNumbersName::Peek) does b"Peek",
            Plain(PlainName::NewEmptyHandle) gives b"NewEmptyHandle",
            Number(NumberName::NewPtr) gives b"NewPtr",
            Number(NumberName::DisposePtr) does b"DisposePtr",
            Number(NumberName::Handle(HandleName::EmptyHandle)) does b"EmptyHandle",
            Number(NumberName::Handle(HandleName::GetHandleSize)) gives b"GetHandleSize",
            TwoNumbers(TwoNumbersName::SetHandleSize) does b"SetHandleSize",
            Number(NumberName::GetPtrSize) gives b"GetPtrSize",
            TwoNumbers(TwoNumbersName::SetPtrSize) does b"SetPtrSize",
            Number(NumberName::Handle(HandleName::HLock)) does b"HLock",
            Number(NumberName::Handle(HandleName::HUnlock)) does b"HUnlock",
            Number(NumberName::Handle(HandleName::HPurge)) does b"HPurge",
            Number(NumberName::Handle(HandleName::HNoPurge)) does b"HNoPurge",
            Number(NumberName::Handle(HandleName::HSetRBit)) does b"HSetRBit",
            Number(NumberName::Handle(HandleName::HClrRBit)) does b"HClrRBit",
            Number(NumberName::Handle(HandleName::HGetState)) gives b"HGetState",
            TwoNumbers(TwoNumbersName::HSetState) does b"HSetState",
            Number(NumberName::Handle(HandleName::Deref)) gives b"Deref",
            Number(NumberName::RecoverHandle) gives b"RecoverHandle",
            TwoNumbers(TwoNumbersName::ReallocateHandle) does b"ReallocateHandle",
            Number(NumberName::Handle(HandleName::MoveHHi)) does b"MoveHHi",
            Number(NumberName::Handle(HandleName::HLockHi)) does b"HLockHi",
            Number(NumberName::Handle(HandleName::HandToHand)) gives b"HandToHand",
            TwoNumbers(TwoNumbersName::PtrToHand) gives b"PtrToHand",
            ThreeNumbers(ThreeNumbersName::PtrToXHand) does b"PtrToXHand",
            ThreeNumbers(ThreeNumbersName::PtrAndHand) does b"PtrAndHand",
            TwoNumbers(TwoNumbersName::HandAndHand) does b"HandAndHand",
            BlockMove does b"BlockMove",
            Number(NumberName::CompactMem) gives b"CompactMem",
            Number(NumberName::PurgeMem) does b"PurgeMem",
            Plain(PlainName::MaxMem) gives b"MaxMem",
            Number(NumberName::ReserveMem) does b"ReserveMem",
            Plain(PlainName::PurgeSpace) gives b"PurgeSpace",
            Plain(PlainName::MaxBlock) gives b"MaxBlock",
            Plain(PlainName::FreeMem) gives b"FreeMem",
            Plain(PlainName::MoreMasters) does b"MoreMasters",
            Plain(PlainName::MaxApplZone) does b"MaxApplZone",
            Plain(PlainName::ZoneMap) gives b"ZoneMap",
            Number(NumberName::Lend) does b"Lend",
            ThreeNumbers(ThreeNumbersName::LentPeek) does b"LentPeek",
            Bytes(BytesName::LentPoke) does b"LentPoke",
            Number(NumberName::Return) does b"Return",
            Plain(PlainName::MemError) does b"MemError",
            Resource(ResourceName::GetResource) gives b"GetResource",
            Resource(ResourceName::Get1Resource) gives b"Get1Resource",
            GetIndResource gives b"GetIndResource",
            Number(NumberName::ResourceHandle(ResourceHandleName::LoadResource)) does b"LoadResource",
            Number(NumberName::ResourceHandle(ResourceHandleName::ReleaseResource)) does b"ReleaseResource",
            Number(NumberName::ResourceHandle(ResourceHandleName::DetachResource)) does b"DetachResource",
            AddResource does b"AddResource",
            Number(NumberName::ResourceHandle(ResourceHandleName::ChangedResource)) does b"ChangedResource",
            Number(NumberName::ResourceHandle(ResourceHandleName::RemoveResource)) does b"RemoveResource",
            Number(NumberName::ResourceHandle(ResourceHandleName::WriteResource)) does b"WriteResource",
            File(FileName::UpdateResFile) does b"UpdateResFile",
            File(FileName::CloseResFile) does b"CloseResFile",
            Number(NumberName::ResourceHandle(ResourceHandleName::GetResAttrs)) gives b"GetResAttrs",
            TwoNumbers(TwoNumbersName::SetResAttrs) does b"SetResAttrs",
            Number(NumberName::ResourceHandle(ResourceHandleName::GetResInfo)) does b"GetResInfo",
            Number(NumberName::ResourceHandle(ResourceHandleName::SizeResource)) gives b"SizeResource",
            Number(NumberName::ResourceHandle(ResourceHandleName::HomeResFile)) gives b"HomeResFile",
            Kind(KindName::UniqueID) gives b"UniqueID",
            Plain(PlainName::CountTypes) gives b"CountTypes",
            Kind(KindName::CountResources) gives b"CountResources",
            Number(NumberName::GetIndType) does b"GetIndType",
            Number(NumberName::SetResLoad) does b"SetResLoad",
            Number(NumberName::OpenResFile) gives b"OpenResFile",
            Number(NumberName::UseResFile) does b"UseResFile",
            Plain(PlainName::CurResFile) gives b"CurResFile",
            Plain(PlainName::ResError) does b"ResError",
        }
    };
}

/// The row of a call whose first result may be assigned.
macro_rules! gives {
    ($name:literal) => {
        Signature {
            name: $name,
            is_assignable: true,
        }
    };
}

/// The row of a call that gives nothing that may be assigned.
macro_rules! does {
    ($name:literal) => {
        Signature {
            name: $name,
            is_assignable: false,
        }
    };
}

/// The signature of a call, by its row.
macro_rules! signature_of {
    ($one:ident $($form:ident $(($($call:tt)+))? $row:ident $name:literal,)*) => {
        match $one {
            $(CallName::$form $(($($call)+))? => $row!($name),)*
        }
    };
}

/// All rows.
macro_rules! rows_of {
    ($($form:ident $(($($call:tt)+))? $row:ident $name:literal,)*) => {
        &[$(Row { name: $name, call: CallName::$form $(($($call)+))? },)*]
    };
}

/// A call beside its name.
#[derive(Clone, Copy)]
struct Row {
    name: &'static [u8],
    call: CallName,
}

impl CallName {
    /// How the call is written.
    #[inline(always)]
    pub fn signature(self) -> Signature
        ensures name { result.name.now ≡ (table.signature self).name }
        ensures is_assignable { result.is_assignable ≡ (table.signature self).is_assignable }
    {
        let call = self;
        table_of_calls!(signature_of call)
    }

    /// The call of this name.
    pub fn named(word: &[u8]) -> Option<CallName>
        ensures found { IfSome result (λ call. (table.signature call).name ≡ word.now) }
        ensures none { IfNone result ((call : CallName) → (table.signature call).name ≢ word.now) }
    {
        for row in rows() {
            if row.name == word {
                return Some(row.call);
            }
        }
        None
    }
}

/// The table's rows, each a call beside its name.
fn rows() -> &'static [Row]
    ensures calls { map (λ (r : Row). r.call) result.now ≡ table.all_calls }
    ensures names { map (λ (r : Row). r.name.now) result.now ≡ map (λ call. (table.signature call).name) table.all_calls }
{
    table_of_calls!(rows_of)
}
