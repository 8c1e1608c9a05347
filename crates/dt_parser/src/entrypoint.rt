// The entries by document 01's numbers.
ghost use Rattle.std.specs.Prelude.{◌≡◌};
ghost use Rattle.definitions.specs.Grammar as Grammar;
ghost use Rattle.definitions.specs.Call as Call;
ghost use Rattle.grammar.specs.Subprograms.{entry_for};
ghost use Rattle.dt_parser.specs.Asked.{asked_of};

use grammar::entry::Entrypoint;
use layout::node_kind;

// What a call's first number asks for.
#[tactic(auto, unfolding(definitions::specs::Call::entry_of))]
pub fn entry_of(number: u32) -> Option<Entrypoint>
    ensures { asked_of result ≡ Call.entry_of number }
{
    match number {
        1 => Some(Entrypoint::SourceFile),
        2 => Some(Entrypoint::ReferenceNoamp),
        3 => Some(Entrypoint::PropValues),
        4 => Some(Entrypoint::Cells),
        _ => None,
    }
}

// The kind of the root's node.
#[tactic(auto, unfolding(definitions::specs::Grammar::root_kind))]
pub fn root_kind(e: Entrypoint) -> u32
    ensures { result ≡ Grammar.root_kind (entry_for e) }
{
    match e {
        Entrypoint::SourceFile => node_kind::SOURCE_FILE,
        Entrypoint::ReferenceNoamp => node_kind::DT_PHANDLE,
        Entrypoint::PropValues => node_kind::ENTRY_PROP_VALUES,
        Entrypoint::Cells => node_kind::ENTRY_CELLS,
    }
}
