//! Buttons of a row and of a next node, each a form.
ghost use Rattle.std.specs.Prelude.{◌≡◌, ◌++◌, IfOk, OnOk, option_copied};
ghost use Rattle.dr_run_page.specs.Documents.{both_buttons, both_hop_buttons, button, buttons};
ghost use Rattle.dr_run_page.specs.Documents.{hop_button, hop_buttons, names_itself};

use crate::pieces::{Piece, put_pieces};
use crate::shown::put_shown;
use dr_base::Text;
use std::alloc::{AllocError, Global};

/// Adds a form with one button.
fn put_button<'x>(
    out: &mut Vec<u8>,
    act: &'x str,
    label: &'x str,
    key: &'x Text,
    uid: &'x Text,
    dest: &'x Text,
) -> Result<(), AllocError>
    ensures { OnOk result (out.new.items
        ≡ out.old.items ++ button act.now label.now key.now uid.now dest.now) }
{
    put_pieces(
        out,
        &[
            Piece::Markup("<form method=\"post\" action=\""),
            Piece::Markup(act),
            Piece::Markup("\"><input type=\"hidden\" name=\"key\" value=\""),
            Piece::Words(key.as_bytes()),
            Piece::Markup("\"><input type=\"hidden\" name=\"uid\" value=\""),
            Piece::Words(uid.as_bytes()),
            Piece::Markup("\"><input type=\"hidden\" name=\"dest\" value=\""),
            Piece::Words(dest.as_bytes()),
            Piece::Markup("\"><button>"),
            Piece::Markup(label),
            Piece::Markup("</button></form>"),
        ],
    )
}

/// Adds both buttons.
fn put_both(out: &mut Vec<u8>, key: &Text, uid: &Text, dest: &Text) -> Result<(), AllocError>
    ensures { OnOk result (out.new.items
        ≡ out.old.items ++ both_buttons key.now uid.now dest.now) }
{
    put_button(out, "/requeue", "Queue again", key, uid, dest)?;
    out.extend_from_slice(b"<details><summary>Drop</summary>")?;
    put_button(out, "/drop", "Drop for good", key, uid, dest)?;
    out.extend_from_slice(b"</details>")?;
    Ok(())
}

/// Whether what stands for a text is the text.
fn names_itself(alloc: Global, text: &Text) -> Result<bool, AllocError>
    ensures { IfOk result (λ is. is ≡ names_itself text.now) }
{
    let mut out = Vec::new(alloc);
    put_shown(&mut out, text.as_bytes())?;
    Ok(out.as_slice() == text.as_bytes())
}

/// Adds a form with one button, for an act on a next node.
fn put_hop_button<'x>(
    out: &mut Vec<u8>,
    act: &'x str,
    label: &'x str,
    key: &'x Text,
    dest: &'x Text,
) -> Result<(), AllocError>
    ensures { OnOk result (out.new.items
        ≡ out.old.items ++ hop_button act.now label.now key.now dest.now) }
{
    put_pieces(
        out,
        &[
            Piece::Markup("<form method=\"post\" action=\""),
            Piece::Markup(act),
            Piece::Markup("\"><input type=\"hidden\" name=\"key\" value=\""),
            Piece::Words(key.as_bytes()),
            Piece::Markup("\"><input type=\"hidden\" name=\"dest\" value=\""),
            Piece::Words(dest.as_bytes()),
            Piece::Markup("\"><button>"),
            Piece::Markup(label),
            Piece::Markup("</button></form>"),
        ],
    )
}

/// Adds both of its buttons.
fn put_both_hop(out: &mut Vec<u8>, key: &Text, dest: &Text) -> Result<(), AllocError>
    ensures { OnOk result (out.new.items ≡ out.old.items ++ both_hop_buttons key.now dest.now) }
{
    put_hop_button(out, "/visit", "Visit now", key, dest)?;
    put_hop_button(out, "/requeue", "Queue all held again", key, dest)?;
    Ok(())
}

/// Adds the buttons of a next node, where a form would name it.
pub(crate) fn put_hop_buttons(
    out: &mut Vec<u8>,
    key: Option<&Text>,
    dest: &Text,
) -> Result<(), AllocError>
    ensures { OnOk result (out.new.items
        ≡ out.old.items ++ hop_buttons (option_copied key.entry) dest.now) }
{
    let Some(key) = key else {
        return Ok(());
    };
    let alloc = *out.allocator();
    if !names_itself(alloc, dest)? {
        return Ok(());
    }
    put_both_hop(out, key, dest)
}

/// Adds the buttons of a row, where a form would name it.
pub(crate) fn put_buttons(
    out: &mut Vec<u8>,
    key: Option<&Text>,
    uid: &Text,
    dest: &Text,
) -> Result<(), AllocError>
    ensures { OnOk result (out.new.items
        ≡ out.old.items ++ buttons (option_copied key.entry) uid.now dest.now) }
{
    let Some(key) = key else {
        return Ok(());
    };
    let alloc = *out.allocator();
    if !names_itself(alloc, uid)? {
        return Ok(());
    }
    if !names_itself(alloc, dest)? {
        return Ok(());
    }
    put_both(out, key, uid, dest)
}
