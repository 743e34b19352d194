//! The laws.
ghost use Rattle.std.specs.Prelude.{◌≡◌, ◌∷◌, ◌↔◌, List, ℕ};
ghost use Rattle.ctrl_msg.specs.declared.message.Body.TheVariants.{Install};
ghost use Rattle.ctrl_msg.specs.declared.message.Message.{Message};
ghost use Rattle.ctrl_msg.specs.declared.message.Place.{Place};
ghost use Rattle.switch_table.specs.declared.tables.Tables.{Tables};
ghost use Rattle.wire.specs.Assembly.{AreWireFramesHeld, IsRefusedWireFrame};
ghost use Rattle.wire.specs.Frames.{AreWireFrames, count_in_wire_frame, frames, wire_frames_of_receiver, wire_frames_of_version};
ghost use Rattle.message_bag.specs.Feeding.{AreBagFramesAllFed, AreBagFramesOf, HasBagFrames, bag_frames_held_after};
ghost use Rattle.message_bag.specs.Installing.{bag_install_frames};

/// The frames of a message may come in any order and any number of times: an assembler refuses none
/// of them. All its places are filled exactly if each frame of the message has come, and then it
/// has the message's frames.
///
/// So, as `Assembler::feed` ensures, it returns `None` until the last of them has come, and the
/// message then and at each repeat.
pub fn bag_frames_in_any_order()
    ensures taken { (m : Message) (f : List ℕ) (fed : List (List ℕ)) → HasBagFrames m
        → AreBagFramesOf m (f ∷ fed) → IsRefusedWireFrame (bag_frames_held_after fed) f → ⊥ }
    ensures all_held { (m : Message) (f : List ℕ) (fed : List (List ℕ)) → HasBagFrames m
        → AreBagFramesOf m (f ∷ fed)
        → (AreWireFramesHeld (bag_frames_held_after (f ∷ fed)) (count_in_wire_frame f) ↔ AreBagFramesAllFed m (f ∷ fed)) }
    ensures whole { (m : Message) (fed : List (List ℕ)) → HasBagFrames m → AreBagFramesOf m fed
        → AreBagFramesAllFed m fed → bag_frames_held_after fed ≡ frames m }
{}

/// Frames belong to at most one message.
pub fn bag_frames_have_one_message()
    ensures { (m other : Message) (fs : List (List ℕ)) → AreWireFrames m fs → AreWireFrames other fs
        → other ≡ m }
{}

/// The frames of an installation after its first one encode only the tables: they are the same for
/// every switch and every boot. The first one says how many there are, the switch and the boot.
pub fn later_bag_frames_carry_tables()
    ensures { (to : Place) (boot : ℕ) (tables : Tables)
        → frames (record { to = to; body = Install boot tables })
        ≡ bag_install_frames to boot tables }
{}

/// An installation of the same tables under another version has the same frames, except for the
/// four bytes of the version where the second one begins.
pub fn bag_frames_of_another_version()
    ensures { (to : Place) (boot version : ℕ) (tables : Tables)
        → frames (record { to = to; body = Install boot (record tables { version = version }) })
        ≡ wire_frames_of_version version (frames (record { to = to; body = Install boot tables })) }
{}

/// The same message to another receiver has the same frames, except for the one byte of the
/// receiver where the first one begins.
pub fn bag_frames_of_another_receiver()
    ensures { (m : Message) (to : Place)
        → frames (record m { to = to }) ≡ wire_frames_of_receiver to (frames m) }
{}
