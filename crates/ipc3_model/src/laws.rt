//! What holds of every message and reply, and of all bytes.

ghost use Rattle.std.specs.Prelude.{◌≡◌, ◌↔◌, ◌≤◌, ◌<◌, ◌++◌, ℕ, List, length, slice_index, Ok, Err, Some};
ghost use Rattle.ipc3_model.specs.Messages.{decoded, message_spelling, size_of};
ghost use Rattle.ipc3_model.specs.Meanings.{IsMessage, Means, message_fault};
ghost use Rattle.ipc3_model.specs.Replies.{decoded_reply, reply_fault, reply_size, reply_spelling};
ghost use Rattle.ipc3_model.specs.ReplyForms.{IsReply, MeansReply};
ghost use Rattle.ipc3_model.specs.declared.message.Message.{Message as Value};
ghost use Rattle.ipc3_model.specs.declared.reply.Reply.{Reply as ReplyValue};
ghost use Rattle.ipc3_model.specs.declared.fault.CodecFault.{CodecFault as Fault};

/// Bytes are decoded to the one message that they carry, and a message is decoded from its spelling.
pub fn messages_are_decoded()
    // Bytes carry at most one message, and it is what they are decoded to.
    ensures carried { (b : List ℕ) (m : Value) → ((i : ℕ) → slice_index b i < 256) → (decoded b ≡ Ok m) ↔ (IsMessage m × Means b m) }
    ensures one { (b : List ℕ) (m n : Value) → IsMessage m → IsMessage n → Means b m → Means b n → m ≡ n }
    ensures faults { (b : List ℕ) (f : Fault) → (decoded b ≡ Err f) ↔ (message_fault b ≡ Some f) }
    // Whatever follows it.
    ensures again { (m : Value) (rest : List ℕ) → IsMessage m → decoded (message_spelling m ++ rest) ≡ Ok m }
    ensures long { (m : Value) → IsMessage m → length (message_spelling m) ≡ size_of m }
    ensures least { (m : Value) → 8 ≤ size_of m }
    ensures most { (m : Value) → IsMessage m → size_of m ≤ 384 }
{}

/// Bytes are decoded to the one reply that they carry, and a reply is decoded from its spelling.
pub fn replies_are_decoded()
    // Bytes carry at most one reply, and it is what they are decoded to.
    ensures carried { (b : List ℕ) (r : ReplyValue) → ((i : ℕ) → slice_index b i < 256) → (decoded_reply b ≡ Ok r) ↔ (IsReply r × MeansReply b r) }
    ensures one { (b : List ℕ) (r s : ReplyValue) → IsReply r → IsReply s → MeansReply b r → MeansReply b s → r ≡ s }
    ensures faults { (b : List ℕ) (f : Fault) → (decoded_reply b ≡ Err f) ↔ (reply_fault b ≡ Some f) }
    // Whatever follows it.
    ensures again { (r : ReplyValue) (rest : List ℕ) → IsReply r → decoded_reply (reply_spelling r ++ rest) ≡ Ok r }
    ensures long { (r : ReplyValue) → IsReply r → length (reply_spelling r) ≡ reply_size r.body }
    ensures least { (r : ReplyValue) → 12 ≤ reply_size r.body }
    ensures most { (r : ReplyValue) → IsReply r → reply_size r.body ≤ 384 }
{}
