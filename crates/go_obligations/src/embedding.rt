// Types that may be embedded in a struct (Go specification, "Struct types").
ghost use Rattle.std.specs.Prelude.{◌≡◌, IfOk};
ghost use Rattle.go_term.specs.Shapes.{shape_tree};
ghost use Rattle.go_tree.specs.declared.node_kind.NodeKind.TheVariants as kinds;
ghost use Rattle.go_model.specs.Obligations.Constraints as constraints;
ghost use Rattle.go_model.specs.Obligations.Embedding as spec;
ghost use Rattle.go_judge.specs.Types.Forms.{IsOwnForm, answer_as, form_as};
ghost use Rattle.go_judge.specs.Types.Own.{AreOwn, Keeps};
ghost use Rattle.go_judge.specs.Quests.{run};
ghost use Rattle.go_obligations.specs.EmbeddingParts.{answer_of, embeds_asked};

use crate::layer::{embeds, is_parameter};
use go_base::NoMemory;
use go_model::{Answer, Form, Forms};
use go_term::{Shape, Ty};
use go_tree::NodeKind;
use std::alloc::Global;

/// Whether a type may stand for an embedded field of this kind, Unknown with the first header that its underlying type
/// lacks. An error is want of memory.
pub(crate) fn may_be_embedded<F: Forms>(
    alloc: Global,
    judge: &mut F,
    kind: NodeKind,
    t: &Ty,
) -> Result<Answer, NoMemory>
    requires { F.is_type judge.old t.now }
    ensures answer { IfOk result (λ answer. answer_as answer
        ≡ run (F.headers judge.old) (spec.may_be_embedded kind (F.tree judge.old t.now))) }
    ensures keeps { Keeps (F.headers judge.old) (F.headers judge.new) (F.names judge.old) (F.names judge.new)
        (F.outcomes judge.old) (F.outcomes judge.new) (F.is_spent judge.old) (F.is_spent judge.new)
        (F.world judge.old) (F.world judge.new) (F.is_type judge.old) (F.is_type judge.new)
        (F.tree judge.old) (F.tree judge.new) }
{
    match kind {
        NodeKind::EmbeddedField => may_embed(alloc, judge, false, t),
        NodeKind::EmbeddedPointer => may_embed_pointer(alloc, judge, t),
        _ => Ok(Answer::Yes),
    }
}

// A pointer type by its base type; another type is no matter here.
fn may_embed_pointer<F: Forms>(alloc: Global, judge: &mut F, t: &Ty) -> Result<Answer, NoMemory>
    requires { F.is_type judge.old t.now }
    ensures answer { IfOk result (λ answer. answer_as answer
        ≡ run (F.headers judge.old) (spec.may_be_embedded kinds.EmbeddedPointer (F.tree judge.old t.now))) }
    ensures keeps { Keeps (F.headers judge.old) (F.headers judge.new) (F.names judge.old) (F.names judge.new)
        (F.outcomes judge.old) (F.outcomes judge.new) (F.is_spent judge.old) (F.is_spent judge.new)
        (F.world judge.old) (F.world judge.new) (F.is_type judge.old) (F.is_type judge.new)
        (F.tree judge.old) (F.tree judge.new) }
{
    let shape = judge.see(alloc, t)?;
    may_embed_base(alloc, judge, &shape)
}

fn may_embed_base<F: Forms>(alloc: Global, judge: &mut F, shape: &Shape) -> Result<Answer, NoMemory>
    requires { AreOwn (F.is_type judge.old) shape.now }
    ensures answer { IfOk result (λ answer. answer_as answer ≡ run (F.headers judge.old)
        (spec.may_be_embedded kinds.EmbeddedPointer (shape_tree (F.tree judge.old) shape.now))) }
    ensures keeps { Keeps (F.headers judge.old) (F.headers judge.new) (F.names judge.old) (F.names judge.new)
        (F.outcomes judge.old) (F.outcomes judge.new) (F.is_spent judge.old) (F.is_spent judge.new)
        (F.world judge.old) (F.world judge.new) (F.is_type judge.old) (F.is_type judge.new)
        (F.tree judge.old) (F.tree judge.new) }
{
    match shape {
        Shape::Pointer(base) => may_embed(alloc, judge, true, base),
        _ => Ok(Answer::Yes),
    }
}

// Behind a `*` or not.
fn may_embed<F: Forms>(
    alloc: Global,
    judge: &mut F,
    starred: bool,
    t: &Ty,
) -> Result<Answer, NoMemory>
    requires { F.is_type judge.old t.now }
    ensures answer { IfOk result (λ answer. answer_as answer
        ≡ run (F.headers judge.old) (spec.may_embed starred (F.tree judge.old t.now))) }
    ensures keeps { Keeps (F.headers judge.old) (F.headers judge.new) (F.names judge.old) (F.names judge.new)
        (F.outcomes judge.old) (F.outcomes judge.new) (F.is_spent judge.old) (F.is_spent judge.new)
        (F.world judge.old) (F.world judge.new) (F.is_type judge.old) (F.is_type judge.new)
        (F.tree judge.old) (F.tree judge.new) }
{
    let shape = judge.see(alloc, t)?;
    may_embed_by(alloc, judge, starred, t, is_parameter(&shape))
}

fn may_embed_by<F: Forms>(
    alloc: Global,
    judge: &mut F,
    starred: bool,
    t: &Ty,
    parameter: bool,
) -> Result<Answer, NoMemory>
    requires own { F.is_type judge.old t.now }
    requires parameter { constraints.is_parameter (F.tree judge.old t.now) ≡ parameter }
    ensures answer { IfOk result (λ answer. answer_as answer
        ≡ run (F.headers judge.old) (spec.may_embed starred (F.tree judge.old t.now))) }
    ensures keeps { Keeps (F.headers judge.old) (F.headers judge.new) (F.names judge.old) (F.names judge.new)
        (F.outcomes judge.old) (F.outcomes judge.new) (F.is_spent judge.old) (F.is_spent judge.new)
        (F.world judge.old) (F.world judge.new) (F.is_type judge.old) (F.is_type judge.new)
        (F.tree judge.old) (F.tree judge.new) }
{
    if parameter {
        return Ok(Answer::No);
    }
    let form = judge.underlying(alloc, t)?;
    embeds_form(alloc, judge, starred, &form)
}

// By the underlying type; one that there is not is no reason against it.
fn embeds_form<F: Forms>(
    alloc: Global,
    judge: &mut F,
    starred: bool,
    form: &Form,
) -> Result<Answer, NoMemory>
    requires { IsOwnForm (F.is_type judge.old) form.now }
    ensures answer { IfOk result (λ answer. answer_as answer
        ≡ embeds_asked starred (form_as (F.tree judge.old) form.now)) }
    ensures keeps { Keeps (F.headers judge.old) (F.headers judge.new) (F.names judge.old) (F.names judge.new)
        (F.outcomes judge.old) (F.outcomes judge.new) (F.is_spent judge.old) (F.is_spent judge.new)
        (F.world judge.old) (F.world judge.new) (F.is_type judge.old) (F.is_type judge.new)
        (F.tree judge.old) (F.tree judge.new) }
{
    match form {
        Form::Is(u) => embeds_type(alloc, judge, starred, u),
        Form::Absent => Ok(Answer::Yes),
        Form::Unknown(d) => Ok(Answer::Unknown(*d)),
    }
}

fn embeds_type<F: Forms>(
    alloc: Global,
    judge: &mut F,
    starred: bool,
    u: &Ty,
) -> Result<Answer, NoMemory>
    requires { F.is_type judge.old u.now }
    ensures answer { IfOk result (λ answer. answer ≡ answer_of (spec.embeds_as starred (F.tree judge.old u.now))) }
    ensures keeps { Keeps (F.headers judge.old) (F.headers judge.new) (F.names judge.old) (F.names judge.new)
        (F.outcomes judge.old) (F.outcomes judge.new) (F.is_spent judge.old) (F.is_spent judge.new)
        (F.world judge.old) (F.world judge.new) (F.is_type judge.old) (F.is_type judge.new)
        (F.tree judge.old) (F.tree judge.new) }
{
    let shape = judge.see(alloc, u)?;
    Ok(answer_of(embeds(starred, &shape)))
}

fn answer_of(yes: bool) -> Answer
    ensures { result ≡ answer_of yes }
{
    if yes { Answer::Yes } else { Answer::No }
}
