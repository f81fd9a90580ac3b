//! How far all paths are bent.

ghost use Rattle.std.specs.Prelude.{◌<◌, IfOk, IfSome};
ghost use Rattle.mesh_clear.specs.Private.Looking.{AreBends, AreFit};

use mesh_check::leading::bend_of;
use mesh_pairs::pairs::LEASH;
use mesh_paths::paths::Paths;
use std::alloc::{AllocError, Global};

/// How many units each path is bent by. Nothing where one is bent by more than 8.
pub fn bends_of(alloc: Global, paths: &Paths) -> Result<Option<Vec<u64>>, AllocError>
    requires { AreFit paths.now }
    ensures { IfOk result (λ o. IfSome o (λ bends. AreBends paths.now bends.items)) }
{
    let mut bends = Vec::with_capacity(alloc, paths.edges.len())?;
    for path in 0..paths.edges.len() {
        let bend = bend_of(paths, path as u32);
        if bend > LEASH {
            return Ok(None);
        }
        bends.push(bend)?;
    }
    Ok(Some(bends))
}
