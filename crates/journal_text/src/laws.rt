ghost use Rattle.journal_text.specs.Sizes.{JournalLinesFit};

use net_file::switch_name_laws;

/// With its line feed, the line of each item fits in 2,048 bytes: no route or mask has more than
/// the 64 switches of the greatest network, and no name more than 16 bytes.
pub fn journal_text_lines_fit()
    ensures { JournalLinesFit }
{
    switch_name_laws();
}
