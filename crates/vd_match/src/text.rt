//! The text of the support package.

/// The support package in VHDL-93, as `convert` writes it.
pub fn support_text() -> &'static str {
    "library ieee;
use ieee.std_logic_1164.all;
package vdown_support is
  function vd_cond(a : std_ulogic) return boolean;
  function vd_eq(l : std_ulogic; r : std_ulogic) return std_ulogic;
  function vd_eqv(l : std_ulogic_vector; r : std_ulogic_vector) return std_ulogic;
  function vd_eqb(l : bit; r : bit) return bit;
  function vd_eqbv(l : bit_vector; r : bit_vector) return bit;
  function vd_ltb(l : bit; r : bit) return bit;
  function vd_leb(l : bit; r : bit) return bit;
  function vd_gtb(l : bit; r : bit) return bit;
  function vd_geb(l : bit; r : bit) return bit;
  function vd_rand(a : std_ulogic_vector) return std_ulogic;
  function vd_ror1(a : std_ulogic_vector) return std_ulogic;
  function vd_rxor(a : std_ulogic_vector) return std_ulogic;
  function vd_brand(a : bit_vector) return bit;
  function vd_bror(a : bit_vector) return bit;
  function vd_brxor(a : bit_vector) return bit;
  function vd_and_vs(l : std_ulogic_vector; r : std_ulogic) return std_ulogic_vector;
  function vd_or_vs(l : std_ulogic_vector; r : std_ulogic) return std_ulogic_vector;
  function vd_xor_vs(l : std_ulogic_vector; r : std_ulogic) return std_ulogic_vector;
  function vd_and_sv(l : std_ulogic; r : std_ulogic_vector) return std_ulogic_vector;
  function vd_or_sv(l : std_ulogic; r : std_ulogic_vector) return std_ulogic_vector;
  function vd_xor_sv(l : std_ulogic; r : std_ulogic_vector) return std_ulogic_vector;
  function vd_band_vs(l : bit_vector; r : bit) return bit_vector;
  function vd_bor_vs(l : bit_vector; r : bit) return bit_vector;
  function vd_bxor_vs(l : bit_vector; r : bit) return bit_vector;
  function vd_band_sv(l : bit; r : bit_vector) return bit_vector;
  function vd_bor_sv(l : bit; r : bit_vector) return bit_vector;
  function vd_bxor_sv(l : bit; r : bit_vector) return bit_vector;
  function vd_sll(l : std_ulogic_vector; r : integer) return std_ulogic_vector;
  function vd_srl(l : std_ulogic_vector; r : integer) return std_ulogic_vector;
  function vd_rol(l : std_ulogic_vector; r : integer) return std_ulogic_vector;
  function vd_ror(l : std_ulogic_vector; r : integer) return std_ulogic_vector;
  function vd_str(a : std_ulogic) return string;
  function vd_strv(a : std_ulogic_vector) return string;
  function vd_dash(a : std_ulogic_vector) return boolean;
end package vdown_support;
package body vdown_support is
  function vd_cond(a : std_ulogic) return boolean is
  begin
    return (a = '1') or (a = 'H');
  end;
  function vd_eq(l : std_ulogic; r : std_ulogic) return std_ulogic is
  begin
    if (l = '-') or (r = '-') then
      return '1';
    end if;
    return not (l xor r);
  end;
  function vd_eqv(l : std_ulogic_vector; r : std_ulogic_vector) return std_ulogic is
    constant first : std_ulogic_vector := l & \"\";
    constant second : std_ulogic_vector(first'range) := r;
    variable result : std_ulogic := '1';
  begin
    for i in first'range loop
      result := result and vd_eq(first(i), second(i));
    end loop;
    return result;
  end;
  function vd_eqb(l : bit; r : bit) return bit is
  begin
    return not (l xor r);
  end;
  function vd_eqbv(l : bit_vector; r : bit_vector) return bit is
    constant first : bit_vector := l & \"\";
    constant second : bit_vector(first'range) := r;
    variable result : bit := '1';
  begin
    for i in first'range loop
      result := result and vd_eqb(first(i), second(i));
    end loop;
    return result;
  end;
  function vd_ltb(l : bit; r : bit) return bit is
  begin
    return (not l) and r;
  end;
  function vd_leb(l : bit; r : bit) return bit is
  begin
    return (not l) or r;
  end;
  function vd_gtb(l : bit; r : bit) return bit is
  begin
    return l and (not r);
  end;
  function vd_geb(l : bit; r : bit) return bit is
  begin
    return l or (not r);
  end;
  function vd_rand(a : std_ulogic_vector) return std_ulogic is
    constant elements : std_ulogic_vector := a & \"\";
    variable result : std_ulogic := '1';
  begin
    for i in elements'range loop
      result := result and elements(i);
    end loop;
    return result;
  end;
  function vd_ror1(a : std_ulogic_vector) return std_ulogic is
    constant elements : std_ulogic_vector := a & \"\";
    variable result : std_ulogic := '0';
  begin
    for i in elements'range loop
      result := result or elements(i);
    end loop;
    return result;
  end;
  function vd_rxor(a : std_ulogic_vector) return std_ulogic is
    constant elements : std_ulogic_vector := a & \"\";
    variable result : std_ulogic := '0';
  begin
    for i in elements'range loop
      result := result xor elements(i);
    end loop;
    return result;
  end;
  function vd_brand(a : bit_vector) return bit is
    constant elements : bit_vector := a & \"\";
    variable result : bit := '1';
  begin
    for i in elements'range loop
      result := result and elements(i);
    end loop;
    return result;
  end;
  function vd_bror(a : bit_vector) return bit is
    constant elements : bit_vector := a & \"\";
    variable result : bit := '0';
  begin
    for i in elements'range loop
      result := result or elements(i);
    end loop;
    return result;
  end;
  function vd_brxor(a : bit_vector) return bit is
    constant elements : bit_vector := a & \"\";
    variable result : bit := '0';
  begin
    for i in elements'range loop
      result := result xor elements(i);
    end loop;
    return result;
  end;
  function vd_and_vs(l : std_ulogic_vector; r : std_ulogic) return std_ulogic_vector is
    constant elements : std_ulogic_vector := l & \"\";
    constant other : std_ulogic_vector(elements'range) := (others => r);
  begin
    return l and other;
  end;
  function vd_or_vs(l : std_ulogic_vector; r : std_ulogic) return std_ulogic_vector is
    constant elements : std_ulogic_vector := l & \"\";
    constant other : std_ulogic_vector(elements'range) := (others => r);
  begin
    return l or other;
  end;
  function vd_xor_vs(l : std_ulogic_vector; r : std_ulogic) return std_ulogic_vector is
    constant elements : std_ulogic_vector := l & \"\";
    constant other : std_ulogic_vector(elements'range) := (others => r);
  begin
    return l xor other;
  end;
  function vd_and_sv(l : std_ulogic; r : std_ulogic_vector) return std_ulogic_vector is
    constant elements : std_ulogic_vector := r & \"\";
    constant other : std_ulogic_vector(elements'range) := (others => l);
  begin
    return r and other;
  end;
  function vd_or_sv(l : std_ulogic; r : std_ulogic_vector) return std_ulogic_vector is
    constant elements : std_ulogic_vector := r & \"\";
    constant other : std_ulogic_vector(elements'range) := (others => l);
  begin
    return r or other;
  end;
  function vd_xor_sv(l : std_ulogic; r : std_ulogic_vector) return std_ulogic_vector is
    constant elements : std_ulogic_vector := r & \"\";
    constant other : std_ulogic_vector(elements'range) := (others => l);
  begin
    return r xor other;
  end;
  function vd_band_vs(l : bit_vector; r : bit) return bit_vector is
    constant elements : bit_vector := l & \"\";
    constant other : bit_vector(elements'range) := (others => r);
  begin
    return l and other;
  end;
  function vd_bor_vs(l : bit_vector; r : bit) return bit_vector is
    constant elements : bit_vector := l & \"\";
    constant other : bit_vector(elements'range) := (others => r);
  begin
    return l or other;
  end;
  function vd_bxor_vs(l : bit_vector; r : bit) return bit_vector is
    constant elements : bit_vector := l & \"\";
    constant other : bit_vector(elements'range) := (others => r);
  begin
    return l xor other;
  end;
  function vd_band_sv(l : bit; r : bit_vector) return bit_vector is
    constant elements : bit_vector := r & \"\";
    constant other : bit_vector(elements'range) := (others => l);
  begin
    return r and other;
  end;
  function vd_bor_sv(l : bit; r : bit_vector) return bit_vector is
    constant elements : bit_vector := r & \"\";
    constant other : bit_vector(elements'range) := (others => l);
  begin
    return r or other;
  end;
  function vd_bxor_sv(l : bit; r : bit_vector) return bit_vector is
    constant elements : bit_vector := r & \"\";
    constant other : bit_vector(elements'range) := (others => l);
  begin
    return r xor other;
  end;
  function vd_sll(l : std_ulogic_vector; r : integer) return std_ulogic_vector is
    constant bounds : std_ulogic_vector := not l;
    constant elements : std_ulogic_vector(bounds'range) := l;
    variable result : std_ulogic_vector(bounds'range) := (others => '0');
  begin
    for i in bounds'range loop
      if ((r < 0) and (i > (- r))) or ((r >= 0) and (i <= (bounds'right - r))) then
        result(i) := elements(i + r);
      end if;
    end loop;
    return result;
  end;
  function vd_srl(l : std_ulogic_vector; r : integer) return std_ulogic_vector is
  begin
    return vd_sll(l, - r);
  end;
  function vd_rol(l : std_ulogic_vector; r : integer) return std_ulogic_vector is
    constant bounds : std_ulogic_vector := not l;
    constant elements : std_ulogic_vector(bounds'range) := l;
    variable result : std_ulogic_vector(bounds'range) := (others => '0');
    variable count : integer;
  begin
    if bounds'right = 0 then
      return result;
    end if;
    count := r mod bounds'right;
    for i in bounds'range loop
      if i <= (bounds'right - count) then
        result(i) := elements(i + count);
      else
        result(i) := elements(i - (bounds'right - count));
      end if;
    end loop;
    return result;
  end;
  function vd_ror(l : std_ulogic_vector; r : integer) return std_ulogic_vector is
  begin
    return vd_rol(l, - r);
  end;
  function vd_str(a : std_ulogic) return string is
    constant image : string(1 to 3) := std_ulogic'image(a);
  begin
    return (1 => image(2));
  end;
  function vd_strv(a : std_ulogic_vector) return string is
    constant bounds : std_ulogic_vector := not a;
    constant elements : std_ulogic_vector(bounds'range) := a;
    variable result : string(bounds'range);
  begin
    for i in bounds'range loop
      result(i) := vd_str(elements(i))(1);
    end loop;
    return result;
  end;
  function vd_dash(a : std_ulogic_vector) return boolean is
    constant elements : std_ulogic_vector := a & \"\";
  begin
    for i in elements'range loop
      if elements(i) = '-' then
        return true;
      end if;
    end loop;
    return false;
  end;
end package body vdown_support;
"
}
