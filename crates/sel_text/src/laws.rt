//! What the definitions of texts come to, each law the contract of a function that does nothing.
ghost use Rattle.std.specs.Prelude.{◌≡◌, ◌<◌, ◌≤◌, ◌/◌, ◌^◌, ◌↔◌, ℕ, List, Ok, decimal};
ghost use Rattle.std.specs.List.{concat};
ghost use Rattle.sel_text.specs.declared.address.Address.{Address};
ghost use Rattle.sel_text.specs.declared.address.Address.TheVariants.{Four, Six};
ghost use Rattle.sel_text.specs.declared.item.AddressItem.{AddressItem};
ghost use Rattle.sel_text.specs.declared.port.PortItem.{PortItem};
ghost use Rattle.sel_text.specs.Address.{IsAddress, address_meaning};
ghost use Rattle.sel_text.specs.Item as item;
ghost use Rattle.sel_text.specs.Lines.{lines_of};
ghost use Rattle.sel_text.specs.Name.{name_meaning};
ghost use Rattle.sel_text.specs.Number.{number_meaning};
ghost use Rattle.sel_text.specs.Port as port;
ghost use Rattle.sel_text.specs.Spelling.{Spells};
ghost use Rattle.sel_text.specs.Text.{address_text};

/// A printed number is read as itself under every bound that it meets.
pub fn numbers_read_back()
    ensures { (value most : ℕ) → value < 2 ^ 128 → value ≤ most
        → number_meaning most (decimal value) ≡ Ok value }
{}

/// A number is read from one text only, the one that it prints as.
pub fn numbers_have_one_text()
    ensures { (most : ℕ) (text : List ℕ) (value : ℕ) → value < 2 ^ 128
        → number_meaning most text ≡ Ok value → text ≡ decimal value }
{}

/// A printed address is read as itself.
pub fn addresses_read_back()
    ensures { (address : Address) → IsAddress address
        → address_meaning (address_text address) ≡ Ok address }
{}

/// An IPv4 address is read from one text only, the one that it prints as.
pub fn ipv4_addresses_have_one_text()
    ensures { (text : List ℕ) (address : ℕ) → address_meaning text ≡ Ok (Four address)
        → text ≡ address_text (Four address) }
{}

/// An IPv6 address is read from the texts that spell it, and from no others.
pub fn ipv6_addresses_are_spelled()
    ensures { (text : List ℕ) (address : ℕ)
        → Spells text address ↔ (address_meaning text ≡ Ok (Six address)) }
{}

/// A name is the text that it was read from.
pub fn names_are_their_texts()
    ensures { (text name : List ℕ) → name_meaning text ≡ Ok name → name ≡ text }
{}

/// An address item that is read is of one family and in order.
pub fn address_items_are_in_order()
    ensures { (text : List ℕ) (read : AddressItem) → item.item_meaning text ≡ Ok read
        → item.AreAddressesInOrder read }
{}

/// From the lowest to the highest address of a prefix are the numbers that agree in all but the
/// host bits.
pub fn prefixes_hold_what_agrees()
    ensures { (address host_bits other : ℕ)
        → ((item.lowest address host_bits ≤ other) × (other ≤ item.highest address host_bits))
        ↔ (other / 2 ^ host_bits ≡ address / 2 ^ host_bits) }
{}

/// A port item that is read is in order.
pub fn port_items_are_in_order()
    ensures { (text : List ℕ) (read : PortItem) → port.port_meaning text ≡ Ok read
        → port.ArePortsInOrder read }
{}

/// The lines of a text, one after another, are the text.
pub fn lines_are_the_text()
    ensures { (text : List ℕ) → concat (lines_of text) ≡ text }
{}
