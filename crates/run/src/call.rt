// The calls that a step can ask for, by what they answer and by what they take of the text.
ghost use Rattle.run.specs.Asked.{Asks};

// With the name that the step tells.
#[derive(Clone, Copy, Debug, PartialEq, Eq)]
pub(crate) enum Named {
    Format,
    FormatDefault,
    FindUser,
    CreateUser,
}

// With that name and the type that the step tells.
#[derive(Clone, Copy, Debug, PartialEq, Eq)]
pub(crate) enum Typed {
    FindFile,
    CreateIndexed,
    CreateContiguous,
}

// The calls whose answer is a single value.
#[derive(Clone, Copy, Debug, PartialEq, Eq)]
pub(crate) enum Valued {
    Named(Named),
    Typed(Typed),
    Check,
    Address,
    DeleteUser,
    Give,
    Take,
    Grow,
    Shrink,
    DeleteFile,
    ReadPage,
    WritePage,
    NoteOpen,
    ConvertToApostrophe,
    ConvertToZeros,
}

#[derive(Clone, Copy, Debug, PartialEq, Eq)]
pub(crate) enum Call {
    WhoHolds,
    Salvage,
    Valued(Valued),
}

// The call of a number, as C has it: its place in document 01's list of work, then in that of document 02. No other number is a call.
pub(crate) fn call_of(number: usize) -> Option<Call>
    ensures { Asks number result }
{
    let valued = match number {
        1 => Valued::Named(Named::Format),
        2 => Valued::Check,
        3 => Valued::Named(Named::FindUser),
        4 => Valued::Typed(Typed::FindFile),
        5 => Valued::Address,
        6 => return Some(Call::WhoHolds),
        7 => Valued::Named(Named::CreateUser),
        8 => Valued::DeleteUser,
        9 => Valued::Give,
        10 => Valued::Take,
        11 => Valued::Typed(Typed::CreateIndexed),
        12 => Valued::Typed(Typed::CreateContiguous),
        13 => Valued::Grow,
        14 => Valued::Shrink,
        15 => Valued::DeleteFile,
        16 => Valued::ReadPage,
        17 => Valued::WritePage,
        18 => Valued::NoteOpen,
        19 => Valued::Named(Named::FormatDefault),
        20 => Valued::ConvertToApostrophe,
        21 => Valued::ConvertToZeros,
        22 => return Some(Call::Salvage),
        _ => return None,
    };
    Some(Call::Valued(valued))
}
