// Widgets: their words and names, their vendor arrays, and the controls after them.
ghost use Rattle.std.specs.Prelude.{◌≡◌, ◌≤◌, ◌<◌, ◌+◌, ◌^◌, length, IfOk};
ghost use Rattle.tplg_model.specs.Outcomes.{Gives};
ghost use Rattle.tplg_model.specs.ArrayReading.{arrays_of};
ghost use Rattle.tplg_model.specs.Reading as reading;

use crate::fields::{name_at, tail_size};
use crate::items::{Item, items_at};
use sof_base::{Items, Name44, half, word, words_at};
use std::alloc::Global;
use std::marker::Model;
use tplg_model::{TokenArray, TplgFault, Widget};
use tplg_tokens::{TokenFault, read_arrays};

/// A widget without its controls, of which it says only the number.
#[derive(Drop)]
struct Head {
    id: u32,
    name: Name44,
    sname: Name44,
    words: [u32; 6],
    event_flags: u16,
    event_type: u16,
    num_kcontrols: u32,
    tokens: Items<TokenArray>,
}

impl Model for Head {
    ghost use Rattle.tplg_model.specs.Spelling.{WidgetHead};

    ghost Value = { WidgetHead };

    ghost view = { λ a. record {
      id = a.id;
      name = a.name;
      sname = a.sname;
      words = a.words;
      event_flags = a.event_flags;
      event_type = a.event_type;
      num_kcontrols = a.num_kcontrols;
      tokens = a.tokens;
    } };
}

/// The vendor arrays of the private data of the widget at a place.
fn tokens_at(alloc: Global, at: usize, private: &[u8]) -> Result<Items<TokenArray>, TplgFault>
    ensures { Gives (λ x. x) result (reading.or_tokens at (arrays_of private.now)) }
{
    match read_arrays(alloc, private) {
        Ok(tokens) => Ok(tokens),
        Err(TokenFault::OutOfMemory) => Err(TplgFault::OutOfMemory),
        Err(_) => Err(TplgFault::Tokens(at)),
    }
}

#[tactic(auto, unfolding(tplg_model::specs::Reading::widget_head_step))]
fn head_at(alloc: Global, at: usize, bytes: &[u8]) -> Result<(Head, usize), TplgFault>
    ensures gives { Gives (λ x. x) result (reading.widget_head_step at bytes.now) }
    ensures within { IfOk result (λ x. x.1 ≤ length bytes.now) }
{
    let size = tail_size(132, at, bytes)?;
    let name = name_at(at, bytes, 8)?;
    let sname = name_at(at, bytes, 52)?;
    let tokens = tokens_at(alloc, at, &bytes[132..132 + size])?;
    Ok((
        Head {
            id: word(bytes, 4),
            name,
            sname,
            words: words_at(bytes, 96),
            event_flags: half(bytes, 120),
            event_type: half(bytes, 122),
            num_kcontrols: word(bytes, 124),
            tokens,
        },
        132 + size,
    ))
}

impl Item for Widget {
    ghost step = { reading.widget_step };

    #[tactic(auto, unfolding(tplg_model::specs::Reading::widget_step, tplg_model::specs::Reading::headed_at))]
    fn read(alloc: Global, at: usize, bytes: &[u8]) -> Result<(Self, usize), TplgFault>
        requires { at + length bytes.now < 2 ^ 64 }
        ensures gives { Gives (λ x. x) result (reading.widget_step at bytes.now) }
        ensures within { IfOk result (λ x. x.1 ≤ length bytes.now) }
    {
        let (head, size) = head_at(alloc, at, bytes)?;
        let (_, rest) = bytes.split_at(size);
        let words = head.words;
        let (controls, used) = items_at(alloc, head.num_kcontrols, at + size, rest)?;
        Ok((
            Widget {
                id: head.id,
                name: head.name,
                sname: head.sname,
                words,
                event_flags: head.event_flags,
                event_type: head.event_type,
                tokens: head.tokens,
                controls,
            },
            size + used,
        ))
    }
}
