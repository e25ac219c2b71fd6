//! The answers to a call that got a fault, as constants: a fault may mean that memory ran out, so the answer needs
//! none.

ghost use Rattle.std.specs.Prelude.{◌≡◌};
ghost use Rattle.plant_wire_answer.specs.Answers.{answer_bytes};
ghost use Rattle.plant_model.specs.declared.reply.Answer.TheVariants as answers;

use plant_types::Fault;

/// The bytes of the answer to a call that got a fault.
pub(crate) fn fault_text(fault: &Fault) -> &'static [u8]
    ensures { result.now ≡ answer_bytes (answers.Fault fault.now) }
{
    match fault {
        Fault::Memory =>
            b"HTTP/1.1 503 Service Unavailable\r\nContent-Type: application/json\r\nContent-Length: 18\r\n\r\n{\"fault\":\"Memory\"}",
        Fault::Store =>
            b"HTTP/1.1 503 Service Unavailable\r\nContent-Type: application/json\r\nContent-Length: 17\r\n\r\n{\"fault\":\"Store\"}",
    }
}
