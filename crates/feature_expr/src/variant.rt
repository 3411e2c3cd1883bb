ghost use Rattle.std.specs.Prelude.{◌≡◌, ◌++◌, true, OnOk};
ghost use Rattle.feature_expr.specs.Variants.{held_names, separated, separator, variant_text};

use crate::config::Config;
use crate::features::Features;
use values::{Memory, Name};

/// Adds the names of the features that hold, in the order of the features, as `{A,B}`.
pub fn push_variant(text: &mut Vec<u8>, features: &Features, config: &Config) -> Result<(), Memory>
    ensures { OnOk result (text.new.items ≡ text.old.items ++ variant_text features.now config.now) }
{
    text.extend_from_slice(b"{")?;
    push_names(text, features, config)?;
    text.extend_from_slice(b"}")?;
    Ok(())
}

fn push_names(text: &mut Vec<u8>, features: &Features, config: &Config) -> Result<(), Memory>
    ensures { OnOk result (text.new.items ≡ text.old.items ++ separated true (held_names config.now 0 features.now)) }
{
    let mut is_first = true;
    for feature in 0..features.count() {
        if config.holds(feature) {
            push_name(text, is_first, features.name(feature))?;
            is_first = false;
        }
    }
    Ok(())
}

fn push_name(text: &mut Vec<u8>, is_first: bool, name: &Name) -> Result<(), Memory>
    ensures { OnOk result (text.new.items ≡ text.old.items ++ (separator is_first ++ name.now)) }
{
    if !is_first {
        text.extend_from_slice(b",")?;
    }
    text.extend_from_slice(name.as_slice())?;
    Ok(())
}
