//! What holds of restores as a whole.

ghost use Rattle.folder_restore.specs.ShownLaws.{RestoresTree};

use office_model::Port;

/// Over a port whose moves are legal histories from a sound office, a restore is of a backup of the host, and a folder that tells its
/// tree tells the backup's tree then.
pub fn restores_make_the_backup<P: Port>()
    ensures { RestoresTree P.moves }
{}
