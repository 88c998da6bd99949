// A ticket moved between form 1 and form 2.
#![tactic(auto)]

ghost use Rattle.std.specs.Prelude.{◌≡◌};
ghost use Rattle.calls.specs.Calls.{as_reply};
ghost use Rattle.forms.specs.Move.{is_form, too_late, move_ticket};

use calls::Refusal;
use tape_model::Ticket;

fn is_form(form: u8) -> bool
    ensures { result ≡ is_form form }
{
    matches!(form, 1 | 2)
}

// Whether a form 2 ticket, asked for in form 1, is tipped after form 1's last second.
fn too_late(t: Ticket, form: u8) -> bool
    ensures { result ≡ too_late t form }
{
    (t.form == 2) & (form == 1) & (43199 < t.tipped)
}

// The ticket in the form asked for: 4 for a form other than 1 and 2 or a ticket that breaks the rule, then 11 for a form 2 ticket that is tipped too late for
// form 1.
pub fn move_ticket(t: Ticket, form: u8) -> Result<Ticket, Refusal>
    ensures { as_reply result ≡ move_ticket t form }
{
    let right = is_form(form) & ticket::valid(t);
    if !right {
        return Err(Refusal::TicketRule);
    }
    if too_late(t, form) {
        return Err(Refusal::TooLateForForm1);
    }
    Ok(Ticket { form, ..t })
}
