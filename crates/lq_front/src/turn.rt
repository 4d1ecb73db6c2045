ghost use Rattle.std.specs.Prelude.{◌≡◌, Some};
ghost use Rattle.lq_turns.specs.Stops.{is_to_run};

use lq_turns::What;

/// Whether a changeset runs at its turn, new or again; where its checksum is filled in it does not.
pub fn is_to_run(what: What) -> bool
    ensures { result ≡ is_to_run (Some what) }
{
    match what {
        What::New => true,
        What::Again => true,
        What::Fill => false,
    }
}
