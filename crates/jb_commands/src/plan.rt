ghost use Rattle.std.specs.Prelude.{◌≡◌, ◌^◌, ◌<◌, ◌∷◌, [], IfOk, None, Ok, codes, length};
ghost use Rattle.jb_queue.specs.QueueText.{value_of};
ghost use Rattle.jb_handle.specs.Size.{IsWithinSize};
ghost use Rattle.jb_commands.specs.AnswerSaid.{said};
ghost use Rattle.jb_json.specs.Facts.{Counted, Listed, Named, Sparse, facts_of};
ghost use Rattle.jb_json.specs.Objects.{json_line};
ghost use Rattle.jb_commands.specs.Plan.{IsBestCertOf, PlanSays, SaysPlan, cert_facts, cert_in, status_of_plan};
ghost use Rattle.jb_commands.specs.Plan.{told_as};

use crate::command_output::CommandOutput;
use crate::queue_fault::fault_answer;
use jb_args::AnswerForm;
use jb_block::Memory;
use jb_cost::Geometry;
use jb_json::{Field, put_json};
use jb_plan::{Planned, plan};
use jb_price::{Cert, CertAnswer, print_cert};
use jb_queue::{QueueText, read_queue};
use std::alloc::Global;

/// What `jb plan` says of the bytes of a queue text: the text of a certificate with a least cut, status 0, or that
/// says that none fits, status 1; or the text's first fault, status 2.
///
/// # Errors
/// `Memory` where memory ran out.
pub fn plan_answer(alloc: Global, form: AnswerForm, text: &[u8]) -> Result<CommandOutput, Memory>
    requires { length text.now < 2 ^ 63 }
    /// What `plan` prints is the certificate of a least cut, or that there is none, or the first fault of the text; and
    /// in JSON the same.
    ensures said { IfOk result (λ answer. PlanSays form text.now (said answer)) }
{
    match read_queue(alloc, text) {
        Ok(queue) => plan_told(alloc, form, &queue),
        Err(fault) => fault_answer(alloc, form, fault),
    }
}

/// What is said of a queue's best certificate.
fn plan_told(alloc: Global, form: AnswerForm, queue: &QueueText) -> Result<CommandOutput, Memory>
    requires { IsWithinSize queue.now.handles.items }
    ensures said { IfOk result (λ answer. SaysPlan form (Ok (value_of queue.now)) (said answer)) }
{
    let cert = best_cert(alloc, queue)?;
    let out = cert_bytes(alloc, form, &cert)?;
    Ok(CommandOutput {
        status: status_of(&cert.answer),
        out,
        err: Vec::new(alloc),
        hint: None,
    })
}

/// A certificate in this form.
fn cert_bytes(alloc: Global, form: AnswerForm, cert: &Cert) -> Result<Vec<u8>, Memory>
    ensures { IfOk result (λ out. out.items ≡ cert_in form cert.now) }
{
    match form {
        AnswerForm::Text => Ok(print_cert(alloc, cert)?.into_bytes()),
        AnswerForm::Json => cert_json(alloc, cert),
    }
}

/// A certificate in JSON.
fn cert_json(alloc: Global, cert: &Cert) -> Result<Vec<u8>, Memory>
    ensures { IfOk result (λ out. out.items ≡ json_line (cert_facts cert.now)) }
{
    match &cert.answer {
        CertAnswer::Cut { bounds, total } => {
            let cut = numbers_of(alloc, bounds.as_slice())?;
            cut_json(alloc, cert.prices.as_slice(), cut.as_slice(), *total)
        }
        CertAnswer::NoCut => no_cut_json(alloc, cert.prices.as_slice()),
    }
}

/// A certificate with a cut in JSON.
fn cut_json<'b>(
    alloc: Global,
    prices: &'b [Option<u64>],
    cut: &'b [u64],
    total: u64,
) -> Result<Vec<u8>, Memory>
    ensures { IfOk result (λ out. out.items ≡ json_line (Sparse (codes "prices") prices.now
        ∷ Listed (codes "cut") [] cut.now ∷ Counted (codes "total") total ∷ [])) }
{
    let fields = [
        Field::Sparse("prices", prices),
        Field::Listed("cut", "", cut),
        Field::Counted("total", total),
    ];
    json_bytes(alloc, &fields)
}

/// A certificate without a cut in JSON.
fn no_cut_json(alloc: Global, prices: &[Option<u64>]) -> Result<Vec<u8>, Memory>
    ensures { IfOk result (λ out. out.items ≡ json_line (Sparse (codes "prices") prices.now
        ∷ Named (codes "cut") None ∷ Named (codes "total") None ∷ [])) }
{
    let fields = [
        Field::Sparse("prices", prices),
        Field::Named("cut", None),
        Field::Named("total", None),
    ];
    json_bytes(alloc, &fields)
}

/// These fields in JSON.
fn json_bytes(alloc: Global, fields: &[Field<'_>]) -> Result<Vec<u8>, Memory>
    ensures { IfOk result (λ out. out.items ≡ json_line (facts_of fields.now)) }
{
    let mut out = Vec::new(alloc);
    match put_json(&mut out, fields) {
        Ok(()) => Ok(out),
        Err(_) => Err(Memory),
    }
}

/// The same numbers, as fields have them.
fn numbers_of(alloc: Global, bounds: &[usize]) -> Result<Vec<u64>, Memory>
    ensures { IfOk result (λ numbers. numbers.items ≡ bounds.now) }
{
    let mut numbers = Vec::new(alloc);
    for bound in bounds {
        numbers.push(*bound as u64)?;
    }
    Ok(numbers)
}

/// The exit status of a certificate: 1 where it says that no cut fits.
fn status_of(answer: &CertAnswer) -> u8
    ensures { result ≡ status_of_plan answer.now }
{
    match answer {
        CertAnswer::Cut { .. } => 0,
        CertAnswer::NoCut => 1,
    }
}

/// The best certificate of a queue.
fn best_cert(alloc: Global, queue: &QueueText) -> Result<Cert, Memory>
    requires { IsWithinSize queue.now.handles.items }
    ensures best { IfOk result (IsBestCertOf (value_of queue.now)) }
{
    let geometry = Geometry::of(queue.bs, queue.width);
    let planned = plan(alloc, queue.handles.as_slice(), geometry, queue.limit)?;
    Ok(cert_of(planned))
}

/// The certificate of a plan.
fn cert_of(planned: Planned) -> Cert
    ensures prices { result.prices ≡ planned.prices }
    ensures answer { result.answer ≡ told_as planned.answer }
{
    let Planned { answer, prices } = planned;
    let answer = match answer {
        jb_plan::Answer::Cut { bounds, total } => CertAnswer::Cut { bounds, total },
        jb_plan::Answer::NoCut => CertAnswer::NoCut,
    };
    Cert { prices, answer }
}
