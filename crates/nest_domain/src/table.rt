// The forms of names, in a table.
ghost use Rattle.std.specs.Prelude.{◌≡◌, OnOk, Ok};
ghost use Rattle.affine_expr.specs.Forms.{Form};
ghost use Rattle.affine_expr.specs.Linear.{Meets, or_wide};
ghost use Rattle.affine_ast.specs.Names.{put};
ghost use Rattle.nest_domain.specs.Table.{forms_of};

use affine_ast::Name;
use affine_expr::{Combination, LinearFault};
use affine_rules::Key;
use indexmap::IndexMap;
use module_work::ranges::key_of;
use name_hash::NameHashing;
use std::alloc::AllocError;

/// The forms of names; a name that isn't in the table, or has none there, has no form.
pub type Forms<'a> = IndexMap<Key<'a>, Option<Combination>, NameHashing>;

/// An equal form.
pub fn copied(form: &Combination) -> Result<Combination, LinearFault>
    ensures { Meets {A = Form} (Ok form.now) (λ f. f) result }
{
    Ok(Combination {
        coefs: form.coefs.clone()?,
        constant: form.constant,
    })
}

/// The form that is kept for a name, if one is.
fn kept(form: &Option<Combination>) -> Result<Combination, LinearFault>
    ensures { Meets (or_wide form.now) (λ f. f) result }
{
    match form {
        Some(form) => copied(form),
        None => Err(LinearFault::Wide),
    }
}

/// The form of a name, and a refusal where it has none.
pub fn form_of<'a>(forms: &Forms<'a>, name: &'a Name) -> Result<Combination, LinearFault>
    ensures { Meets (or_wide (forms_of forms.now.entries name.now)) (λ f. f) result }
{
    match forms.get(&key_of(name)) {
        None => Err(LinearFault::Wide),
        Some(form) => kept(form),
    }
}

/// Gives a name a form, or none.
pub(crate) fn set_form<'a>(
    forms: &mut Forms<'a>,
    name: &'a Name,
    form: Option<Combination>,
) -> Result<(), AllocError>
    ensures { OnOk result (forms_of forms.new.entries ≡ put (forms_of forms.old.entries) name.now form) }
{
    forms.insert(key_of(name), form)?;
    Ok(())
}
