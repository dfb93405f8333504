//! What names unfold to.
ghost use Rattle.std.specs.Prelude.{◌≡◌, ◌<◌, length};
ghost use Rattle.elab_model.specs.Questions.{kept_names};
ghost use Rattle.elab_reduce.specs.Items.{env_of, seen_type, unfolds};

use elab_tree::{EType, Env, OutItem};

/// The body of the type's item of that number: what its name unfolds to. There is none where the name is kept.
pub(crate) fn body(env: &Env, stop_at_data: bool, item: u32) -> Option<&EType>
    ensures { unfolds env.now stop_at_data item ≡ seen_type result }
{
    if item >= env.len() {
        return None;
    }
    if is_kept(env, stop_at_data, item) {
        return None;
    }
    match env.get(item) {
        OutItem::TypeDef { body, .. } => Some(body),
        OutItem::Def { .. } => None,
    }
}

/// Whether the name is a datatype's and those are kept.
fn is_kept(env: &Env, stop_at_data: bool, item: u32) -> bool
    requires { item < length env.now.entries }
    ensures { kept_names (env_of env.now) stop_at_data item ≡ result }
{
    stop_at_data && env.datatype(item).is_some()
}
